// The course of a history, the same for every device: events are drawn one by one, happen to both models, and both are compared after each.
use super::{draws, random};
use std::ops::Range;

// Both models of a device, each with its last answer.
pub(super) trait Models {
    // What is counted of a history.
    type Counts;

    // An event of the device, which can be made of a number.
    type Event: Copy + From<u64>;

    // An exchange: a few events in their proper order.
    type Exchange: Copy + Default;

    // The exchange that begins at a step, by the number drawn there.
    fn new_exchange(&self, number: u64, step: u64) -> Self::Exchange;

    // The event at a step, by the number drawn there, while an exchange goes on.
    fn draw(&self, number: u64, exchange: Self::Exchange, step: u64) -> Self::Event;

    // An event happens to both, and what it did is counted.
    fn happen(&mut self, counts: &mut Self::Counts, event: Self::Event);

    // Compares the two after an event, and by the number drawn for it what they answer to more than that.
    fn compare(&self, counts: &mut Self::Counts, number: u64, event: Self::Event, step: u64);
}

// A history of those steps, which leaves the last number that it drew. The start is compared too. No event led to it, and a difference
// there is printed with one whose bits are all set.
pub(super) fn run<M: Models>(
    models: &mut M,
    counts: &mut M::Counts,
    seed: u64,
    steps: Range<u64>,
) -> u64 {
    models.compare(counts, seed, M::Event::from(u64::MAX), steps.start);
    let mut number = seed;
    let mut exchange = M::Exchange::default();
    for step in steps {
        number = random::next(number);
        if draws::begins(step) {
            exchange = models.new_exchange(number, step);
        }
        let event = models.draw(number, exchange, step);
        models.happen(counts, event);
        models.compare(counts, number, event, step);
    }
    number
}
