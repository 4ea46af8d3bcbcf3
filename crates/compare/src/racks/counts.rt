// What the histories of racks were made of and what happened in them, in one row of counts:
//
//     0 histories, 1 events, 2 to 7 by kind, as for the 8255A; 8 to 14 by number, of which the last is 10
//     15 racks that were built, 16 that were refused with 9
//     17 to 72 what became of bytes at each of the eight places, all four channels of a card together, in the order of the tallies
//     73 cycles begun by the first copy of a register and 74 by the second; 75 kept out by a cycle on the same card and 76 on another
//     77 ends on the first card and 78 on another; 79 levels within a cycle on the same card and 80 on another; 81 resets within a cycle
//     82 differences
use super::super::row::Row;
use super::super::twins;
use super::super::twins::{PER_CHANNEL, Tallies};
use super::agree::Compared;
use super::apart::NOWHERE;
use super::who;
use bus::kinds::Kind;
use bus::refusals::{Numbered, Refusal};
use rack::Rack;
use rack::refusals::{BadRack, RackRefusal};

pub(super) type Counts = Row<Compared, 83>;

const NUMBERS: usize = 8;

const BUILT: usize = 15;

const REFUSED: usize = 16;

const FATES: usize = 17;

const FIRST_COPY: usize = 73;

const SECOND_COPY: usize = 74;

const KEPT_OUT_BY_SAME: usize = 75;

const KEPT_OUT_BY_OTHER: usize = 76;

const END_ON_FIRST: usize = 77;

const END_ON_OTHER: usize = 78;

const LEVELS_WITHIN_SAME: usize = 79;

const LEVELS_WITHIN_OTHER: usize = 80;

const RESET_WITHIN: usize = 81;

// The place of a number that an event gives: 10 stands behind 5.
fn place_of_number(number: u8) -> Option<usize> {
    match number {
        0..=5 => Some(NUMBERS + number as usize),
        _ if number == RackRefusal::NoCard.number() => Some(NUMBERS + 6),
        _ => None,
    }
}

pub(super) fn build(counts: &mut Counts, number: u8) {
    if number == 0 {
        counts.add(BUILT, 1);
    } else if number == BadRack.number() {
        counts.add(REFUSED, 1);
    }
}

// What an event was for: the entry of its address, its place, and the place that had the bus before it.
#[derive(Clone, Copy)]
pub(super) struct Aim {
    pub(super) entry: u8,
    pub(super) place: u16,
    pub(super) taken: u8,
}

fn begun(aim: &Aim, number: u8) -> Option<usize> {
    let is_kept_out = number == Refusal::CycleRuns.number();
    match number {
        0 if who::is_second_copy(aim.entry) => Some(SECOND_COPY),
        0 => Some(FIRST_COPY),
        _ if is_kept_out && who::place(aim.entry) == aim.taken => Some(KEPT_OUT_BY_SAME),
        _ if is_kept_out => Some(KEPT_OUT_BY_OTHER),
        _ => None,
    }
}

// What an event did within a cycle.
fn within(aim: &Aim, kind: Kind) -> Option<usize> {
    match kind {
        Kind::Reset => Some(RESET_WITHIN),
        Kind::EndCycle if aim.taken == 0 => Some(END_ON_FIRST),
        Kind::EndCycle => Some(END_ON_OTHER),
        Kind::OutsideLevels if aim.place == aim.taken as u16 => Some(LEVELS_WITHIN_SAME),
        Kind::OutsideLevels => Some(LEVELS_WITHIN_OTHER),
        Kind::BeginRead | Kind::BeginWrite => None,
    }
}

// The place of what an event did besides. A begun cycle is counted always, and one that is kept out; all else only where a cycle ran.
fn deed(aim: &Aim, kind: u8, number: u8) -> Option<usize> {
    match Kind::numbered(u16::from(kind))? {
        Kind::BeginRead | Kind::BeginWrite => begun(aim, number),
        kind if aim.taken != NOWHERE && number == 0 => within(aim, kind),
        _ => None,
    }
}

pub(super) fn event(counts: &mut Counts, aim: &Aim, kind: u8, number: u8) {
    counts.event(kind);
    if let Some(place) = place_of_number(number) {
        counts.add(place, 1);
    }
    if let Some(place) = deed(aim, kind, number) {
        counts.add(place, 1);
    }
}

fn tallies(rack: &Rack, place: u8) -> Tallies {
    twins::tallies(&rack.card(place).unwrap_or_default())
}

// How far the event moved the tallies of the card at each place, its four channels together.
pub(super) fn fates(counts: &mut Counts, before: &Rack, after: &Rack) {
    for place in 0..8 {
        let moved = twins::moved(&tallies(before, place), &tallies(after, place));
        let first = FATES + place as usize * PER_CHANNEL;
        for channel in moved.chunks(PER_CHANNEL) {
            counts.add_all(first, channel);
        }
    }
}
