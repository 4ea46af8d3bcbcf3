// A history of the 8255A or the 82C55A: a start state, which both models are put into, and the events that follow.
use super::apart::{Answer, Machine};
use super::counts::Counts;
use super::course::Models;
use super::events::Event;
use super::proved::Stepped;
use super::views::View;
use super::{apart, counts, course, draws, views};
use chip::Chip;

// Both models with their last answers, and the view of the proved one.
#[derive(Drop)]
struct Pair {
    proved: Stepped<Chip>,
    apart: Answer,
    view: View,
}

impl Models for Pair {
    type Counts = Counts;

    type Event = Event;

    type Exchange = u8;

    fn new_exchange(&self, number: u64, _step: u64) -> u8 {
        draws::new_exchange(number)
    }

    fn draw(&self, number: u64, exchange: u8, step: u64) -> Event {
        draws::draw(number, exchange, step)
    }

    fn happen(&mut self, counts: &mut Counts, event: Event) {
        self.proved.step(event);
        self.apart = apart::event(self.apart.machine, event.kind, event.first, event.second);
        let before = self.view;
        self.view = views::of_proved(&self.proved);
        counts::count(counts, event, &before, &self.view);
    }

    fn compare(&self, counts: &mut Counts, _number: u64, event: Event, step: u64) {
        counts.hold(event.into(), step, self.view, views::of_apart(&self.apart));
    }
}

// A history of that length, which leaves the last number that it drew. Before the first event there is no answer, so both have the same one.
pub(super) fn run(
    counts: &mut Counts,
    chip: Chip,
    machine: Machine,
    seed: u64,
    length: u64,
) -> u64 {
    let proved = Stepped::at_start(chip);
    let mut pair = Pair {
        proved,
        apart: Answer {
            machine,
            number: 0,
            byte: 0,
        },
        view: views::of_proved(&proved),
    };
    counts.history();
    course::run(&mut pair, counts, seed, 0..length)
}
