// IBF and OBF as the program turns them over by bit set/reset.

use super::{Machine, channels, handshake, signals, words};

// What no channel has as its number, for a pin that is no buffer flag.
const NONE: usize = 4;

pub(super) fn channel_of(role: u8) -> usize {
    match role {
        words::IBF_A => channels::A_IN,
        words::OBF_A => channels::A_OUT,
        words::IBF_B => channels::B_IN,
        words::OBF_B => channels::B_OUT,
        _ => NONE,
    }
}

// A flag that stands at the level already stays, and so does all behind it. To turn it over, either a mark is set by which the byte of the
// latch, whatever it is, waits there uninvited, or the byte that waits is struck off. A mark that says neither is left.
pub(super) fn turn(mut machine: Machine, channel: usize, level: bool) -> Machine {
    if channel == NONE || signals::buffer_flag(machine, channel) == level {
        return machine;
    }
    let is_output = channel % 2 == 1;
    if level == is_output {
        return handshake::settle(machine, channel, handshake::STRUCK, handshake::EMPTY);
    }
    machine.fill[channel % 4] = handshake::WAITING;
    handshake::settle(machine, channel, handshake::PLANTED, handshake::WAITING)
}
