//! A rack answers scripts: a frame is an event of it, and every card that it has stands in every answer line.
ghost use Rattle.std.specs.Prelude.{◌≡◌};

use super::frames;
use crate::{Answer, Scripted};
use rack::Rack;
use std::marker::Model;
use text::line::Line;

// A rack by the addresses and places of its cards. By itself it is a device, which answers as one card by the numbers of its bus.
#[derive(Drop)]
pub(super) struct Answering(pub(super) Rack);

impl Model for Answering {
    ghost use Rattle.rack.specs.declared.Rack.{Rack};

    ghost Value = { Rack };

    ghost view = { λ a. a.0 };
}

#[tactic(auto, unfolding(crate::specs::RackAnswers::acted, rack::specs::Views::card_pins))]
impl Scripted for Answering {
    ghost use Rattle.script.specs.RackAnswers.{answering};

    ghost answerer = { answering };

    fn take(&mut self, line: Line<'_>) -> Answer {
        match frames::event(line) {
            Some(event) => Answer::of(self.0.step(event)),
            None => Answer::NO_FRAME,
        }
    }

    fn cards(&self) -> u8 {
        self.0.count
    }

    fn levels(&self, card: u8, port: u8) -> u8 {
        self.0.pins(card, port).map_or(0, |pins| pins.levels)
    }
}
