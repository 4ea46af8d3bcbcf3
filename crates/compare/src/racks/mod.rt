// The three runs of racks: long histories of racks with good bases; short ones of racks with any, many of which are refused; and short
// ones from arbitrary states.
mod agree;
mod apart; // the second model
mod bases;
mod build; // how that builds a rack
mod counts;
mod draws;
mod events;
mod history;
mod states;
mod views;
mod who; // who answers at an address, in the second model

use super::proved::Stepped;
use super::random::far;
use super::row::of_histories;
use apart::Answer;
use bases::Bases;
use bus::refusals;
use counts::Counts;
use history::{Pair, Racks};
use rack::Rack;
use who::Who;

// The step at which long histories end: they have two rounds.
const LONG: u64 = 600;

// Short ones have 24 steps, in which no card is set up: a mode word or a reset soon ends what is strange.
const SHORT: u64 = draws::SET_UP + 24;

// Both models build a rack of the bases, one of none where that is refused, and their numbers are those of the building.
fn built<'a>(counts: &mut Counts, who: &'a mut Who, bases: Bases) -> Racks<'a> {
    let listed = bases.list.len().min(bases.count as usize);
    let built = Rack::new(&bases.list[..listed]);
    let number = refusals::number(&built);
    counts::build(counts, number);
    let pair = Pair {
        proved: Stepped {
            device: built.unwrap_or_default(),
            number,
            byte: 0,
        },
        apart: build::build(who, bases),
    };
    Racks { pair, bases, who }
}

// Both models are in one state, and there is no number yet.
fn put(who: &mut Who, bases: Bases, seed: u64) -> Racks<'_> {
    let rack = states::arbitrary(bases, seed);
    let shelf = states::twin(&rack);
    who::enter(who, bases::in_places(bases), shelf.cards);
    let pair = Pair {
        proved: Stepped::at_start(rack),
        apart: Answer {
            shelf,
            number: 0,
            byte: 0,
        },
    };
    Racks { pair, bases, who }
}

fn of_good_bases(counts: &mut Counts, seed: u64) -> u64 {
    let mut who = [who::NOBODY; 65536];
    let racks = built(counts, &mut who, bases::good_list(seed));
    history::run(counts, racks, far(seed), 0..LONG)
}

fn of_any_bases(counts: &mut Counts, seed: u64) -> u64 {
    let mut who = [who::NOBODY; 65536];
    let racks = built(counts, &mut who, bases::any_list(seed));
    history::run(counts, racks, far(seed), draws::SET_UP..SHORT)
}

fn of_any_state(counts: &mut Counts, seed: u64) -> u64 {
    let mut who = [who::NOBODY; 65536];
    let racks = put(&mut who, bases::wild_list(seed), seed);
    history::run(counts, racks, far(seed), draws::SET_UP..SHORT)
}

pub(super) fn from_good_bases() -> Counts {
    of_histories(0x7780778077807780, 250, of_good_bases)
}

pub(super) fn from_any_bases() -> Counts {
    of_histories(0x0778077807780778, 3000, of_any_bases)
}

pub(super) fn from_arbitrary_states() -> Counts {
    of_histories(0x7807780778077807, 3250, of_any_state)
}
