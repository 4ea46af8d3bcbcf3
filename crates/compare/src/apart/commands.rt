// Writes to the control address: mode words and bit set/reset.

use super::{Machine, channels, digits, forcing, handshake, words};

pub(super) fn write(machine: Machine, word: u8) -> Machine {
    if word >= 128 {
        set_mode(machine, word)
    } else {
        set_pin(machine, word)
    }
}

// Every mode word starts the ports anew, also one equal to the last: all four channels are emptied, strobed or not. The outside levels
// stay, and of the tallies only those of cleared bytes move.
pub(super) fn set_mode(machine: Machine, word: u8) -> Machine {
    let after_a = cleared(cleared(machine, channels::A_IN), channels::A_OUT);
    let mut next = cleared(cleared(after_a, channels::B_IN), channels::B_OUT);
    next.word = word;
    next.latch = [0, 0, 0, 0];
    next.latch_c = 0;
    next.enable = 0;
    next.fill = [0, 0, 0, 0];
    next
}

fn cleared(machine: Machine, channel: usize) -> Machine {
    handshake::settle(machine, channel, handshake::CLEARED, handshake::EMPTY)
}

// The number of the pin that a word below 128 names.
pub(super) fn pin_named(word: u8) -> usize {
    (word / 2 % 8) as usize
}

// One pin of port C: the latch of a free output, the enable that lies behind a strobe of the outside, or a buffer flag. Behind any other
// pin there is nothing to set.
fn set_pin(mut machine: Machine, word: u8) -> Machine {
    let pin = pin_named(word);
    let value = word % 2 == 1;
    let role = words::role_of(machine.word, pin);
    match role {
        words::OUTPUT => machine.latch_c = digits::with_bit(machine.latch_c, pin, value),
        words::STROBE => machine.enable = digits::with_bit(machine.enable, pin, value),
        _ => machine = forcing::turn(machine, forcing::channel_of(role), value),
    }
    machine
}
