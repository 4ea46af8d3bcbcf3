// The second model of the rack, written apart from the proved one, to be held against it. Every card is a chip of the second model of the
// 8255A, with a bus of its own; the rack only says for which card an event is, and keeps in mind which one has the bus. It uses nothing
// but that model and the table of who answers where. Each function answers for every value of the rack, reached or not. Numbers stand where
// the proved crates have enums and structs, since a form that both had could hide a fault of both.
use super::super::apart;
use super::super::apart::{Explanation, Machine};
use super::who;
use super::who::Who;

#[derive(Clone, Copy)]
pub(super) struct Shelf {
    pub(super) cards: u8, // how many of the eight places have a card, from the first on
    pub(super) taken: u8, // the place of the card that has the bus, or that of none
    pub(super) chips: [Machine; 8],
}

#[derive(Clone, Copy)]
pub(super) struct Answer {
    pub(super) shelf: Shelf,
    pub(super) number: u8,
    pub(super) byte: u8,
}

// Where there is no card: the bus is free.
pub(super) const NOWHERE: u8 = 8;

// The kinds of events.
const RESET: u8 = 0;

const BEGIN_READ: u8 = 1;

const END: u8 = 2;

const BEGIN_WRITE: u8 = 3;

const LEVELS: u8 = 5;

// The numbers that the rack gives by itself; all others are those of a card.
const NO_KIND: u8 = 1;

const BUS_TAKEN: u8 = 4;

const NOTHING_TO_END: u8 = 5;

pub(super) const BAD_RACK: u8 = 9;

const NO_CARD: u8 = 10;

// A rack of so many cards, on which nothing has happened yet.
pub(super) fn power_up(cards: u8) -> Shelf {
    Shelf {
        cards,
        taken: NOWHERE,
        chips: [apart::power_up(); 8],
    }
}

fn refused(shelf: Shelf, number: u8) -> Answer {
    Answer {
        shelf,
        number,
        byte: 0,
    }
}

fn chip_at(shelf: Shelf, place: u8) -> Machine {
    shelf.chips[(place % 8) as usize]
}

// What one card answers, as the answer of the rack, on which another card may have the bus now.
fn answered(mut shelf: Shelf, place: u8, taken: u8, answer: apart::Answer) -> Answer {
    shelf.chips[(place % 8) as usize] = answer.machine;
    shelf.taken = taken;
    Answer {
        shelf,
        number: answer.number,
        byte: answer.byte,
    }
}

// One event: a kind, and an address and a byte, or a place, a port and levels. Operands that the kind lacks are not looked at.
pub(super) fn event(
    shelf: Shelf,
    who: &Who,
    kind: u8,
    first: u16,
    second: u8,
    third: u8,
) -> Answer {
    match kind {
        RESET => refused(reset(shelf), 0),
        BEGIN_READ | BEGIN_WRITE => begin(shelf, who[first as usize], kind, second),
        END => end(shelf),
        LEVELS => levels(shelf, first, second, third),
        _ => refused(shelf, NO_KIND),
    }
}

// Every card is reset, and none has the bus.
fn reset(mut shelf: Shelf) -> Shelf {
    for chip in &mut shelf.chips {
        *chip = apart::event(*chip, RESET, 0, 0).machine;
    }
    shelf.taken = NOWHERE;
    shelf
}

// A cycle begins on the card that answers. It is asked first whether it would take it by itself; and then another may have the bus.
fn begin(shelf: Shelf, entry: u8, kind: u8, byte: u8) -> Answer {
    if entry == who::NOBODY {
        return refused(shelf, NO_CARD);
    }
    let place = who::place(entry);
    let answer = apart::event(chip_at(shelf, place), kind, who::register(entry), byte);
    if answer.number != 0 {
        return refused(shelf, answer.number);
    }
    if shelf.taken != NOWHERE {
        return refused(shelf, BUS_TAKEN);
    }
    answered(shelf, place, place, answer)
}

// The card that has the bus ends its cycle and gives it back.
fn end(shelf: Shelf) -> Answer {
    let place = shelf.taken;
    if place == NOWHERE {
        return refused(shelf, NOTHING_TO_END);
    }
    answered(
        shelf,
        place,
        NOWHERE,
        apart::event(chip_at(shelf, place), END, 0, 0),
    )
}

// Levels reach their card whoever has the bus.
fn levels(shelf: Shelf, place: u16, port: u8, level: u8) -> Answer {
    if place >= shelf.cards as u16 {
        return refused(shelf, NO_CARD);
    }
    let place = (place % 8) as u8;
    answered(
        shelf,
        place,
        shelf.taken,
        apart::event(chip_at(shelf, place), LEVELS, port, level),
    )
}

// The card at a place, behind its number; where there is none, a card on which nothing has happened.
pub(super) fn card(shelf: Shelf, place: u8) -> apart::Answer {
    if place < shelf.cards {
        return apart::Answer {
            machine: chip_at(shelf, place),
            number: 0,
            byte: 0,
        };
    }
    apart::Answer {
        machine: apart::power_up(),
        number: NO_CARD,
        byte: 0,
    }
}

// What is said of an INTR of the card at a place; where there is none, its number, and nothing of a half.
pub(super) fn explain(shelf: Shelf, place: u8, group: u8) -> Explanation {
    let card = card(shelf, place);
    if card.number == 0 {
        return apart::explain(card.machine, group);
    }
    Explanation {
        number: card.number,
        input: 0,
        output: 0,
    }
}
