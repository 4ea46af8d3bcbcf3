//! A device on the bus answers scripts: a frame is an event of it, and it is the one card that it has.
ghost use Rattle.std.specs.Prelude.{◌≡◌};
ghost use Rattle.text.specs.Answers.{line_of};
ghost use Rattle.script.specs.Answers.{by_device};

use super::{Answer, Scripted};
use bus::devices::{Device, step};
use text::line::Line;

#[tactic(auto, unfolding(crate::specs::Answers::acted_in))]
impl<D: Device> Scripted for D {
    ghost answerer = { by_device D.device D.shown };

    fn take(&mut self, line: Line<'_>) -> Answer {
        match line.event() {
            Some(event) => Answer::of(step(self, event)),
            None => Answer::NO_FRAME,
        }
    }

    fn cards(&self) -> u8 {
        1
    }

    fn levels(&self, _card: u8, port: u8) -> u8 {
        self.pins(port).levels
    }
}
