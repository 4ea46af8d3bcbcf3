// The bus: reset, the beginnings of reads and writes, and the end of either. A write stores its byte at its end.

use super::{Machine, commands, handshake, pins, words};

// The phases of the bus.
pub(super) const IDLE: u8 = 0;

pub(super) const READING: u8 = 1;

pub(super) const WRITING: u8 = 2;

pub(super) const POWER_UP_WORD: u8 = 0x9B;

// A reset does what the mode word of power-up does, and drops a running cycle besides.
pub(super) fn reset(machine: Machine) -> Machine {
    commands::set_mode(on_bus(machine, IDLE, 0, 0), POWER_UP_WORD)
}

// The byte that waits is the reader's, but the channel stays full until the end. The lines of C and the control word have no channel, and a
// read of them moves nothing.
pub(super) fn begin_read(machine: Machine, address: u8) -> Machine {
    let next = on_bus(machine, READING, address, 0);
    let channel = address as usize * 2;
    if !words::strobed(machine.word, channel) {
        return next;
    }
    handshake::settle(next, channel, handshake::HANDED_OVER, handshake::FETCHING)
}

// Whatever runs is over.
pub(super) fn end_cycle(machine: Machine) -> Machine {
    let done = match machine.phase {
        READING => release(machine),
        WRITING => store(machine),
        _ => machine,
    };
    on_bus(done, IDLE, 0, 0)
}

// The channel that was read is empty, and a byte that came too late for the reader is swallowed.
fn release(machine: Machine) -> Machine {
    let channel = machine.place as usize * 2;
    if !words::strobed(machine.word, channel) {
        return machine;
    }
    let mut next = handshake::settle(machine, channel, handshake::SWALLOWED, handshake::EMPTY);
    next.fill[channel % 4] = handshake::EMPTY;
    next
}

// The byte on the bus goes where it was addressed to.
fn store(mut machine: Machine) -> Machine {
    match machine.place {
        0 | 1 => machine = write_port(machine, machine.place as usize, machine.data),
        2 => machine.latch_c = pins::ask(machine, 2, pins::STORED),
        3 => machine = commands::write(machine, machine.data),
        _ => {}
    }
    machine
}

pub(super) fn on_bus(mut machine: Machine, phase: u8, place: u8, data: u8) -> Machine {
    machine.phase = phase;
    machine.place = place;
    machine.data = data;
    machine
}

// Port A or B takes the byte if it can put it out at all, and offers it if the outside is to acknowledge it.
fn write_port(mut machine: Machine, port: usize, data: u8) -> Machine {
    let channel = port % 2 * 2 + 1;
    if words::strobed(machine.word, channel) {
        return handshake::offer(machine, channel, data);
    }
    if words::puts_out(machine.word, port) {
        machine.latch[channel] = data;
    }
    machine
}
