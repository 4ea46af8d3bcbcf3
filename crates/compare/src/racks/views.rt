// What a model of the rack answers and shows after an event, in one form for both models: the answer, with one place that is asked by
// itself, and each place as a chip.
use super::super::apart::Explanation;
use super::super::proved::{Stepped, explanation};
use super::super::random::byte;
use super::super::twins::{Counted, PER_CHANNEL};
use super::super::{twins, views};
use super::apart;
use super::apart::{Answer, NOWHERE, Shelf};
use bus::refusals::{self, Numbered};
use bus::{Phase, Pins};
use chip::channel::{Side, Tally};
use control::Group;
use rack::Rack;
use rack::refusals::ViewRefusal;

// What a place answers, behind a number, as the second model has it: 10 where there is no card.
#[derive(Clone, Copy, Debug, PartialEq, Eq)]
struct AtPlace<T> {
    number: u8,
    told: T,
}

// The answer, and whether a cycle runs; and of the place that is asked the pins of a port, the tallies of a channel, and what is said of an INTR, which
// has a number of its own, since a group that there is not has one too.
#[derive(Clone, Copy, Debug, PartialEq, Eq)]
pub(crate) struct View {
    number: u8,
    byte: u8,
    runs: bool,
    pins: AtPlace<Pins>,
    tally: AtPlace<Counted>,
    said: Explanation,
}

// What is asked by itself: a place, and there a port, a group and a channel.
#[derive(Clone, Copy)]
pub(super) struct Question {
    place: u8,
    port: u8,
    group: u8,
    channel: u8,
}

// Mostly one of a few; else any.
fn mostly(number: u64, few: u8) -> u8 {
    if number % 8 == 0 {
        return byte(number >> 8);
    }
    few
}

// Most often a place and a port that there may be, or the next one.
pub(super) fn drawn(number: u64) -> Question {
    Question {
        place: mostly(number, byte(number >> 16) % 9),
        port: mostly(number >> 20, byte(number >> 28) % 4),
        group: mostly(number >> 32, byte(number >> 40) % 3),
        channel: byte(number >> 48) % 4,
    }
}

// The tallies of a channel, by the number that the second model has for it: chip has none.
fn tally(rack: &Rack, place: u8, channel: u8) -> Result<Tally, ViewRefusal> {
    match channel {
        0 => rack.tally(place, Group::A, Side::Input),
        1 => rack.tally(place, Group::A, Side::Output),
        2 => rack.tally(place, Group::B, Side::Input),
        _ => rack.tally(place, Group::B, Side::Output),
    }
}

// What is said of an INTR of the card at a place, in the form of the second model; or the number of the refusal.
fn said(rack: &Rack, place: u8, group: u8) -> Explanation {
    match rack.explain_numbered(place, group) {
        Ok(explained) => explanation(Some(explained)),
        Err(refusal) => Explanation {
            number: refusal.number(),
            input: 0,
            output: 0,
        },
    }
}

pub(super) fn of_proved(last: &Stepped<Rack>, question: &Question) -> View {
    let rack = &last.device;
    let place = question.place;
    let pins = rack.pins(place, question.port);
    let tally = tally(rack, place, question.channel);
    View {
        number: last.number,
        byte: last.byte,
        runs: rack.phase != Phase::Idle,
        pins: AtPlace {
            number: refusals::number(&pins),
            told: pins.unwrap_or_default(),
        },
        tally: AtPlace {
            number: refusals::number(&tally),
            told: twins::counted(&tally.unwrap_or_default()),
        },
        said: said(rack, place, question.group),
    }
}

pub(super) fn of_apart(last: &Answer, question: &Question) -> View {
    let shelf = last.shelf;
    let card = apart::card(shelf, question.place);
    let number = card.number;
    let first = (question.channel % 4) as usize * PER_CHANNEL;
    let tally = card.machine.tally;
    View {
        number: last.number,
        byte: last.byte,
        runs: shelf.taken != NOWHERE,
        pins: AtPlace {
            number,
            told: views::pins_of_apart(card.machine, question.port),
        },
        tally: AtPlace {
            number,
            told: std::array::from_fn(|at| tally[first + at]),
        },
        said: apart::explain(shelf, question.place, question.group),
    }
}

// The card at a place: in its view as a chip the number is that of the place, and the byte the place itself.
pub(super) fn place_of_proved(rack: &Rack, place: u8) -> views::View {
    let card = rack.card(place);
    views::of_proved(&Stepped {
        device: card.unwrap_or_default(),
        number: refusals::number(&card),
        byte: place,
    })
}

pub(super) fn place_of_apart(shelf: &Shelf, place: u8) -> views::View {
    let mut card = apart::card(*shelf, place);
    card.byte = place;
    views::of_apart(&card)
}
