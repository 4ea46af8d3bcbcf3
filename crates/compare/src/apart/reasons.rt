// Why a half of a group's INTR is low. The reasons are numbered in the order in which they are to be named, so the one to name is the
// least of those that hold, in whatever order they are looked at.

use super::{Machine, channels, cycles, digits, signals, words};

// The number by which a group is refused that is neither A nor B.
pub(super) const NO_SUCH_GROUP: u8 = 2;

// What is said of one half. Mode 1 has no half that goes the other way.
const NO_SUCH_HALF: u8 = 0;

const MODE_0: u8 = 1;

const ENABLE_OFF: u8 = 2;

const FLAG_WRONG: u8 = 3;

const LINE_LOW: u8 = 4;

const OWN_CYCLE: u8 = 5;

const HIGH: u8 = 6;

pub(super) fn of_input(machine: Machine, group: u8) -> u8 {
    match group {
        0 => of_half(machine, channels::A_IN, channels::A_OUT, 4, cycles::READING),
        1 => of_half(machine, channels::B_IN, channels::B_OUT, 2, cycles::READING),
        _ => NO_SUCH_HALF,
    }
}

pub(super) fn of_output(machine: Machine, group: u8) -> u8 {
    match group {
        0 => of_half(machine, channels::A_OUT, channels::A_IN, 6, cycles::WRITING),
        1 => of_half(machine, channels::B_OUT, channels::B_IN, 2, cycles::WRITING),
        _ => NO_SUCH_HALF,
    }
}

// A half by its channel, the channel of the other half, the pin of its strobe, behind which its enable lies, and the cycle that is its
// own on its port. A channel that is not strobed is of mode 0 unless the other one is.
fn of_half(machine: Machine, channel: usize, other: usize, pin: usize, cycle: u8) -> u8 {
    let unstrobed = digits::pick(words::strobed(machine.word, other), NO_SUCH_HALF, MODE_0);
    let busy = machine.phase == cycle && machine.place as usize == channel / 2;
    let mut said = least(HIGH, !words::strobed(machine.word, channel), unstrobed);
    said = least(said, !digits::bit(machine.enable, pin), ENABLE_OFF);
    said = least(said, !signals::buffer_flag(machine, channel), FLAG_WRONG);
    said = least(said, !digits::bit(machine.outside_c, pin), LINE_LOW);
    least(said, busy, OWN_CYCLE)
}

// A reason that does not hold changes nothing.
fn least(said: u8, holds: bool, reason: u8) -> u8 {
    digits::pick(holds && reason < said, reason, said)
}
