// The state of the proved model in the form of the second one, whose numbers these are.
use super::apart::Machine;
use bus::Phase;
use chip::channel::{Channel, Fill, Tally};
use chip::{Chip, Core, Edition};

// The phases of the bus.
pub(super) const IDLE: u8 = 0;

pub(super) const READING: u8 = 1;

pub(super) const WRITING: u8 = 2;

#[derive(Clone, Copy)]
pub(super) struct Bus {
    pub(super) phase: u8,
    pub(super) place: u8,
    pub(super) data: u8,
}

pub(super) fn running(phase: Phase) -> Bus {
    match phase {
        Phase::Idle => Bus {
            phase: IDLE,
            place: 0,
            data: 0,
        },
        Phase::Reading(port) => Bus {
            phase: READING,
            place: port,
            data: 0,
        },
        Phase::Writing(address, byte) => Bus {
            phase: WRITING,
            place: address,
            data: byte,
        },
    }
}

// How many tallies a channel has; its tallies; and those of all four channels: A in, A out, B in, B out.
pub(super) const PER_CHANNEL: usize = 7;

pub(super) type Counted = [u16; PER_CHANNEL];

pub(super) type Tallies = [u16; 28];

fn mark(channel: &Channel) -> u8 {
    match channel.fill {
        Fill::Empty => 0,
        Fill::Waiting => 1,
        Fill::Fetching => 2,
    }
}

// The tallies of a channel in the order of the second model.
pub(super) fn counted(tally: &Tally) -> Counted {
    [
        tally.offered,
        tally.handed,
        tally.overwritten,
        tally.swallowed,
        tally.cleared,
        tally.planted,
        tally.struck,
    ]
}

pub(super) fn tallies(chip: &Chip) -> Tallies {
    let Core { a, b, .. } = &chip.core;
    let channels = [
        &a.input.tally,
        &a.output.tally,
        &b.input.tally,
        &b.output.tally,
    ];
    let mut all = [0; 28];
    // Channel by channel: to ask at each of the places which channel has it would take a sixth of a whole run.
    for (places, tally) in all.chunks_exact_mut(PER_CHANNEL).zip(channels) {
        places.copy_from_slice(&counted(tally));
    }
    all
}

// How far each tally moved, which may have passed its end.
pub(super) fn moved(before: &Tallies, after: &Tallies) -> Tallies {
    std::array::from_fn(|at| after[at].wrapping_sub(before[at]))
}

// The edition by the number of the second model.
fn part(edition: Edition) -> u8 {
    match edition {
        Edition::Older => 0,
        Edition::Newer => 1,
    }
}

fn bit(on: bool, worth: u8) -> u8 {
    if on { worth } else { 0 }
}

pub(super) fn machine(chip: &Chip) -> Machine {
    let bus = running(chip.phase);
    Machine {
        part: part(chip.edition),
        phase: bus.phase,
        place: bus.place,
        data: bus.data,
        word: chip.core.word,
        outside_a: chip.core.a.outside,
        outside_b: chip.core.b.outside,
        outside_c: chip.core.c.outside,
        latch: [
            chip.core.a.input.latch,
            chip.core.a.output.latch,
            chip.core.b.input.latch,
            chip.core.b.output.latch,
        ],
        latch_c: chip.core.c.latch,
        enable: bit(chip.core.inte.input, 16)
            | bit(chip.core.inte.output, 64)
            | bit(chip.core.inte.b, 4),
        fill: [
            mark(&chip.core.a.input),
            mark(&chip.core.a.output),
            mark(&chip.core.b.input),
            mark(&chip.core.b.output),
        ],
        tally: tallies(chip),
    }
}
