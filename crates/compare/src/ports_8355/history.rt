// A history of the 8355: a start state, which both models are put into, and the events that follow.
use super::super::course::Models;
use super::super::events::Event;
use super::super::proved::Stepped;
use super::super::{course, draws as chip_draws};
use super::apart::{Answer, Machine};
use super::counts::Counts;
use super::{apart, counts, draws, views};
use i8355::Chip8355;

// Both models with their last answers.
#[derive(Drop)]
struct Pair {
    proved: Stepped<Chip8355>,
    apart: Answer,
}

impl Models for Pair {
    type Counts = Counts;

    type Event = Event;

    type Exchange = u8;

    fn new_exchange(&self, number: u64, _step: u64) -> u8 {
        chip_draws::new_exchange(number)
    }

    fn draw(&self, number: u64, exchange: u8, step: u64) -> Event {
        draws::draw(number, exchange, step)
    }

    fn happen(&mut self, counts: &mut Counts, event: Event) {
        let before = self.proved.device;
        self.proved.step(event);
        self.apart = apart::event(self.apart.machine, event.kind, event.first, event.second);
        counts::count(counts, event.kind, &before, &self.proved);
    }

    // The number decides which port that there is not is compared too.
    fn compare(&self, counts: &mut Counts, number: u64, event: Event, step: u64) {
        let above = views::above(number);
        counts.hold(
            event.into(),
            step,
            views::of_proved(&self.proved, above),
            views::of_apart(&self.apart, above),
        );
    }
}

// A history of that length, which leaves the last number that it drew. Before the first event there is no answer, so both have the same one.
// This is said for each device, since the answers of the two second models are types that share nothing.
pub(super) fn run(
    counts: &mut Counts,
    chip: Chip8355,
    machine: Machine,
    seed: u64,
    length: u64,
) -> u64 {
    let mut pair = Pair {
        proved: Stepped::at_start(chip),
        apart: Answer {
            machine,
            number: 0,
            byte: 0,
        },
    };
    counts.history();
    course::run(&mut pair, counts, seed, 0..length)
}
