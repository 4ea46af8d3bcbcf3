// The pins as an observer sees them, and the ports and the control word as a reader does.

use super::{Machine, channels, digits, signals, words};

// What can be asked of a port: the levels on its pins, a 1 for each pin that the chip drives, what a read of it answers, and, of port C,
// what its latch holds once the byte on the bus is written to it.
pub(super) const LEVELS: u8 = 0;

pub(super) const DRIVEN: u8 = 1;

pub(super) const READ: u8 = 2;

pub(super) const STORED: u8 = 3;

// The answer of port 0, 1 or 2, or of the control word, which has no pins.
pub(super) fn ask(machine: Machine, port: u8, asked: u8) -> u8 {
    match port {
        0 => ask_port(machine, 0, machine.outside_a, asked),
        1 => ask_port(machine, 1, machine.outside_b, asked),
        2 => ask_c(machine, asked),
        3 => ask_word(machine, asked),
        _ => 0,
    }
}

// The mode word that is in force, which reads as one also where it was stored without its bit 7.
fn ask_word(machine: Machine, asked: u8) -> u8 {
    match asked {
        READ => digits::with_bit(machine.word, 7, true),
        _ => 0,
    }
}

// Port A or B. In mode 2 the outside holds port A by its ACK, for as long as that is high. A reader of a strobed
// input sees its latch; any other sees what an observer sees.
fn ask_port(machine: Machine, port: usize, outside: u8, asked: u8) -> u8 {
    let held = port == 0 && digits::bit(machine.word & machine.outside_c, 6);
    let driven = words::puts_out(machine.word, port) && !held;
    let input = port % 2 * 2;
    let seen = digits::pick(driven, latch_of(machine, input + 1), outside);
    match asked {
        DRIVEN => digits::pick(driven, 255, 0),
        READ => digits::pick(
            words::strobed(machine.word, input),
            latch_of(machine, input),
            seen,
        ),
        _ => seen,
    }
}

fn latch_of(machine: Machine, channel: usize) -> u8 {
    machine.latch[channel % 4]
}

// Port C: the eight answers of its pins as a byte.
fn ask_c(machine: Machine, asked: u8) -> u8 {
    let roles = words::roles_of(machine.word);
    let mut byte = 0;
    for (pin, role) in roles.iter().enumerate() {
        byte = digits::with_bit(byte, pin, ask_pin(machine, pin, *role, asked));
    }
    byte
}

// A reader learns the enable where an observer sees the outside's own strobe; all else is the same for both. The chip drives what
// is neither an input nor one of the outside's strobes.
fn ask_pin(machine: Machine, pin: usize, role: u8, asked: u8) -> bool {
    match asked {
        DRIVEN => role != words::INPUT && role != words::STROBE,
        STORED => digits::bit(
            digits::pick(open(machine.word, pin, role), machine.data, machine.latch_c),
            pin,
        ),
        READ => level(machine, pin, role, machine.enable),
        _ => level(machine, pin, role, machine.outside_c),
    }
}

// In mode 2 either channel of port A raises INTR; elsewhere at most one of the two is strobed.
fn level(machine: Machine, pin: usize, role: u8, strobes: u8) -> bool {
    match role {
        words::INPUT => digits::bit(machine.outside_c, pin),
        words::OUTPUT => digits::bit(machine.latch_c, pin),
        words::INTR_A => {
            signals::requests(machine, channels::A_IN, 4)
                || signals::requests(machine, channels::A_OUT, 6)
        }
        words::IBF_A => signals::buffer_flag(machine, channels::A_IN),
        words::OBF_A => signals::buffer_flag(machine, channels::A_OUT),
        words::INTR_B => {
            signals::requests(machine, channels::B_IN, 2)
                || signals::requests(machine, channels::B_OUT, 2)
        }
        words::IBF_B => signals::buffer_flag(machine, channels::B_IN),
        words::OBF_B => signals::buffer_flag(machine, channels::B_OUT),
        _ => digits::bit(strobes, pin),
    }
}

// A write reaches the free outputs of port C, but the upper ones only while group A has no handshake.
fn open(word: u8, pin: usize, role: u8) -> bool {
    role == words::OUTPUT && (pin < 4 || word / 32 % 4 == 0)
}
