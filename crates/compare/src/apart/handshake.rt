// What happens to a byte: the marks of the four channels, the tallies of what was done, and the steps that move both.

use super::Machine;

// The marks of a channel.
pub(super) const EMPTY: u8 = 0;

pub(super) const WAITING: u8 = 1;

pub(super) const FETCHING: u8 = 2;

// How many tallies a channel has, and the place of each.
const TALLIES: usize = 7;

const OFFERED: usize = 0;

pub(super) const HANDED_OVER: usize = 1;

const OVERWRITTEN: usize = 2;

pub(super) const SWALLOWED: usize = 3;

pub(super) const CLEARED: usize = 4;

pub(super) const PLANTED: usize = 5;

pub(super) const STRUCK: usize = 6;

// A byte that waits is counted, and its channel gets the mark. Where none waits the mark stays as it is, whatever it is.
pub(super) fn settle(mut machine: Machine, channel: usize, fate: usize, mark: u8) -> Machine {
    let place = channel % 4;
    if machine.fill[place] != WAITING {
        return machine;
    }
    let at = place * TALLIES + fate % TALLIES;
    machine.tally[at] = machine.tally[at].wrapping_add(1);
    machine.fill[place] = mark;
    machine
}

// A new byte waits in the channel, over one that may be waiting there, and is counted once it waits.
pub(super) fn offer(machine: Machine, channel: usize, byte: u8) -> Machine {
    let mut next = settle(machine, channel, OVERWRITTEN, EMPTY);
    next.latch[channel % 4] = byte;
    next.fill[channel % 4] = WAITING;
    settle(next, channel, OFFERED, WAITING)
}
