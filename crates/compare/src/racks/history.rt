// A history of a rack: a start, which both models are put into, and the events that follow.
use super::super::course;
use super::super::course::Models;
use super::super::proved::Stepped;
use super::apart::Answer;
use super::bases::Bases;
use super::counts::{Aim, Counts};
use super::draws::Exchange;
use super::events::Event;
use super::who::Who;
use super::{agree, apart, counts, draws, views};
use rack::Rack;
use std::ops::Range;

// Both models with their last answers.
#[derive(Clone, Copy)]
pub(super) struct Pair {
    pub(super) proved: Stepped<Rack>,
    pub(super) apart: Answer,
}

// Both models; the bases of their cards, by which events are drawn; and who answers at each address, a long table, which is lent.
#[derive(Drop)]
pub(super) struct Racks<'a> {
    pub(super) pair: Pair,
    pub(super) bases: Bases,
    pub(super) who: &'a Who,
}

impl Racks<'_> {
    // Counts what an event did.
    fn count(&self, counts: &mut Counts, event: Event, before: &Pair) {
        let aim = Aim {
            entry: self.who[event.first as usize],
            place: event.first,
            taken: before.apart.shelf.taken,
        };
        counts::event(counts, &aim, event.kind, self.pair.proved.number);
        counts::fates(counts, &before.proved.device, &self.pair.proved.device);
    }
}

impl Models for Racks<'_> {
    type Counts = Counts;

    type Event = Event;

    type Exchange = Exchange;

    fn new_exchange(&self, number: u64, step: u64) -> Exchange {
        draws::new_exchange(number, step)
    }

    fn draw(&self, number: u64, exchange: Exchange, step: u64) -> Event {
        draws::draw(number, exchange, step, &self.bases)
    }

    fn happen(&mut self, counts: &mut Counts, event: Event) {
        let Event {
            kind,
            first,
            second,
            third,
        } = event;
        let before = self.pair;
        let Pair { proved, apart } = &mut self.pair;
        let answer = proved.device.step_numbers(kind, first, second, third);
        proved.told(answer);
        *apart = apart::event(before.apart.shelf, self.who, kind, first, second, third);
        self.count(counts, event, &before);
    }

    // The number decides what is asked of a rack besides.
    fn compare(&self, counts: &mut Counts, number: u64, event: Event, step: u64) {
        let question = views::drawn(number);
        agree::hold(counts, event.into(), step, &self.pair, &question);
    }
}

// A history of those steps, which leaves the last number that it drew.
pub(super) fn run(counts: &mut Counts, mut racks: Racks<'_>, seed: u64, steps: Range<u64>) -> u64 {
    counts.history();
    course::run(&mut racks, counts, seed, steps)
}
