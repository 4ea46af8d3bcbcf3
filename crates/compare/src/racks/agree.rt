// Whether the two models of the rack agree after an event: in their answers, and at each place.
use super::super::views;
use super::counts::Counts;
use super::history::Pair;
use super::views::{Question, View, of_apart, of_proved, place_of_apart, place_of_proved};

// What is compared: the answers, or the card at a place.
#[derive(Clone, Copy, Debug, PartialEq, Eq)]
pub(crate) enum Compared {
    Answers(View),
    Card(views::View),
}

// The answers, the eight places, and the one behind them.
pub(super) fn hold(counts: &mut Counts, event: u64, step: u64, pair: &Pair, question: &Question) {
    counts.hold(
        event,
        step,
        Compared::Answers(of_proved(&pair.proved, question)),
        Compared::Answers(of_apart(&pair.apart, question)),
    );
    for place in 0..9 {
        counts.hold(
            event,
            step,
            Compared::Card(place_of_proved(&pair.proved.device, place)),
            Compared::Card(place_of_apart(&pair.apart.shelf, place)),
        );
    }
}
