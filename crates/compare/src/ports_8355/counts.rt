// What the histories of the 8355 were made of and what happened in them, in one row of counts:
//
//     0 to 13 histories, events, kinds and numbers, as for the 8255A
//     14 port writes that changed what the latch holds behind an input pin, 15 direction writes, 16 reads that answered
//     17 resets and 18 levels within a cycle; 19 differences
use super::super::counts::NUMBERS;
use super::super::proved::Stepped;
use super::super::row::Row;
use super::views::View;
use bus::Phase;
use bus::kinds::Kind;
use i8355::{Chip8355, Port, Ports};

pub(super) type Counts = Row<View, 20>;

const BEHIND_INPUTS: usize = 14;

const DIRECTIONS: usize = 15;

const READS: usize = 16;

const RESETS_WITHIN: usize = 17;

const LEVELS_WITHIN: usize = 18;

fn behind_input(before: &Port, after: &Port) -> bool {
    (before.latch ^ after.latch) & !before.direction != 0
}

// The place of what the end of a write did, if that is counted.
fn written(address: u8, before: &Ports, after: &Ports) -> Option<usize> {
    match address {
        i8355::PORT_A if behind_input(&before.a, &after.a) => Some(BEHIND_INPUTS),
        i8355::PORT_B if behind_input(&before.b, &after.b) => Some(BEHIND_INPUTS),
        i8355::DIRECTION_A | i8355::DIRECTION_B => Some(DIRECTIONS),
        _ => None,
    }
}

// The same of the end of whatever ran. A read changes nothing that is counted.
fn ended(before: &Chip8355, after: &Ports) -> Option<usize> {
    match before.phase {
        Phase::Writing(address, _) => written(address, &before.ports, after),
        _ => None,
    }
}

// The place of what an accepted event did besides, if that is counted.
fn deed(kind: u8, before: &Chip8355, after: &Ports) -> Option<usize> {
    let within = before.phase != Phase::Idle;
    match Kind::numbered(u16::from(kind))? {
        Kind::Reset if within => Some(RESETS_WITHIN),
        Kind::BeginRead => Some(READS),
        Kind::EndCycle => ended(before, after),
        Kind::OutsideLevels if within => Some(LEVELS_WITHIN),
        _ => None,
    }
}

pub(super) fn count(counts: &mut Counts, kind: u8, before: &Chip8355, after: &Stepped<Chip8355>) {
    counts.event(kind);
    counts.add(NUMBERS + after.number as usize, 1);
    if after.number == 0
        && let Some(place) = deed(kind, before, &after.device.ports)
    {
        counts.add(place, 1);
    }
}
