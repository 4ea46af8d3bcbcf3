// How the second model builds a rack: it enters the cards in the table of who answers where, and then looks whether each stands where it
// may. Numbers stand for what the proved crates have types for, as apart.rt says.
use super::apart::Answer;
use super::bases::Bases;
use super::who::Who;
use super::{apart, bases, who};

const MOST_CARDS: u8 = 8;

// All the bits that a base may have.
const BASE_BITS: u16 = 0x7f8;

// Of two cards with one base the second does not answer there.
fn stands(who: &Who, base: u16, place: u8) -> bool {
    let there = who[base as usize];
    base & !BASE_BITS == 0 && there == place % MOST_CARDS * who::LOCATIONS
}

fn all_stand(who: &Who, bases: [u16; 8], cards: u8) -> bool {
    (0..cards)
        .zip(&bases)
        .all(|(place, base)| stands(who, *base, place))
}

// The number of the building, and the rack, with a table in which there was nobody. A refused one is a rack of none, and has nobody in
// its table.
pub(super) fn build(who: &mut Who, bases: Bases) -> Answer {
    let cards = bases.count;
    let places = bases::in_places(bases);
    who::enter(who, places, cards);
    if cards <= MOST_CARDS && all_stand(who, places, cards) {
        return Answer {
            shelf: apart::power_up(cards),
            number: 0,
            byte: 0,
        };
    }
    *who = [who::NOBODY; 65536];
    Answer {
        shelf: apart::power_up(0),
        number: apart::BAD_RACK,
        byte: 0,
    }
}
