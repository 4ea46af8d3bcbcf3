// The events of a history of a rack. Most stand in an exchange on one card; some of these go to another card, and some events are drawn by
// themselves.
use super::super::exchanges::{EXCHANGES, LENGTH, SETTINGS};
use super::super::random::{byte, word};
use super::super::{draws, events};
use super::bases::Bases;
use super::events::Event;
use bus::kinds::Kind;

// Eight exchanges set up the cards one after the other: at the start of a history, and again in every 300 steps, as a reset undoes it.
const ROUND: u64 = 300;

pub(super) const SET_UP: u64 = 8 * LENGTH as u64;

// An exchange by its number, and the card that it is on.
#[derive(Clone, Copy, Default)]
pub(super) struct Exchange {
    card: u8,
    number: u8,
}

// The exchange that begins at a step.
pub(super) fn new_exchange(number: u64, step: u64) -> Exchange {
    if step % ROUND < SET_UP {
        return Exchange {
            card: (step % ROUND / LENGTH as u64) as u8,
            number: SETTINGS + ((number >> 40) % 2) as u8,
        };
    }
    Exchange {
        card: ((number >> 48) % 8) as u8,
        number: draws::new_exchange(number),
    }
}

// How many of 256 events are drawn by themselves; and how many, those included, are not for the card of the exchange.
const ALONE: u64 = 20;

const ELSEWHERE: u64 = 50;

// The event at a step of a history, which counts from 0, in an exchange.
pub(super) fn draw(number: u64, exchange: Exchange, step: u64, bases: &Bases) -> Event {
    let chance = number >> 56;
    if chance < ALONE {
        return alone(number, bases);
    }
    let planned = draws::at(&EXCHANGES[exchange.number as usize % EXCHANGES.len()], step);
    let which = if chance < ELSEWHERE {
        number >> 40
    } else {
        exchange.card as u64
    };
    on_card(
        draws::planned(planned, number),
        number,
        card(which, bases),
        bases,
    )
}

// One of the cards of the list, by any number; 0 where there is none.
fn card(number: u64, bases: &Bases) -> u64 {
    number.checked_rem(bases.count as u64).unwrap_or(0)
}

fn base_of(place: u64, bases: &Bases) -> u16 {
    bases.list[(place % 10) as usize]
}

// An event of a chip, as one of the card at a place. The copy of the register is drawn, and so are the operands that a reset, an end or a read
// lacks, but for the second of a read, which is what the event of the chip has there.
fn on_card(event: events::Event, number: u64, place: u64, bases: &Bases) -> Event {
    let copy = (number >> 32) % 2 * 4;
    match Kind::numbered(u16::from(event.kind)) {
        Some(Kind::BeginRead | Kind::BeginWrite) => Event {
            kind: event.kind,
            first: word(base_of(place, bases) as u64 + event.first as u64 + copy),
            second: event.second,
            third: byte(number >> 24),
        },
        Some(Kind::OutsideLevels) => Event {
            kind: event.kind,
            first: word(place),
            second: event.first,
            third: event.second,
        },
        _ => Event {
            kind: event.kind,
            first: word(number >> 32),
            second: byte(number >> 24),
            third: byte(number >> 16),
        },
    }
}

// An event by itself: anything at all; a reset, which is rare as it undoes so much; or most often something about the limits of kinds and
// operands, at addresses beside a card or on it, and at places with and without a card. In one of four of these the
// place is too high by 0x100, or the address by 0x800: a model that took one byte of the place, or eleven bits of the address, would not see that.
fn alone(number: u64, bases: &Bases) -> Event {
    let chance = (number >> 48) % 32;
    if chance < 4 {
        return Event::from(number);
    }
    if chance < 5 {
        return Event {
            kind: Kind::Reset.number(),
            ..Event::from(number)
        };
    }
    let kind = (1 + (number >> 24) % 6) as u8;
    let high = (number >> 44) % 4 / 3;
    if kind == Kind::OutsideLevels.number() {
        return Event {
            kind,
            first: word((number >> 32) % 10 + high * 0x100),
            second: byte(number >> 8) % 5,
            third: byte(number),
        };
    }
    let beside = base_of(card(number >> 40, bases), bases) as u64 + (number >> 32) % 24 + 0xfff8;
    Event {
        kind,
        first: word(beside + high * 0x800),
        second: byte(number >> 8),
        third: byte(number),
    }
}
