// The second model of the 8255A and the 82C55A, written apart from the proved one, to be held against it. It uses nothing of the proved
// crates, nor of the program around it, and keeps the chip in bytes and flat arrays with numbered places. Each function answers for every
// value of the machine, reached or not. Numbers stand where the proved crates have enums and structs, since a form that both had could hide a
// fault of both.

mod channels; // the four handshake channels by number
mod commands; // mode words and bit set/reset
mod cycles; // reset, the beginnings of reads and writes, and the end of either
mod digits; // single bits of a byte
mod edges; // new outside levels, the falls among them, and the latches that follow them
mod forcing; // IBF and OBF turned over by the program
mod handshake; // what happens to a byte, and the tallies
mod numbers; // which events are refused, and by which number
mod parts; // the two parts
mod pins; // levels, driven pins and read values
mod reasons; // why INTR is low
mod signals; // INTR, IBF and OBF
mod words; // what a mode word makes of the ports

#[derive(Clone, Copy, Debug, PartialEq, Eq)]
pub(super) struct Machine {
    pub(super) part: u8, // 0 an 8255A, 1 an 82C55A
    pub(super) phase: u8, // 0 idle, 1 reading, 2 writing
    pub(super) place: u8, // the address being read or written; 0 when idle
    pub(super) data: u8, // the byte being written; 0 when none is
    pub(super) word: u8, // the last mode word, as stored
    pub(super) outside_a: u8, // outside levels
    pub(super) outside_b: u8,
    pub(super) outside_c: u8,
    pub(super) latch: [u8; 4], // A in, A out, B in, B out
    pub(super) latch_c: u8,
    pub(super) enable: u8, // INTE at the pin behind which it lies: 4 A in, 6 A out, 2 B
    pub(super) fill: [u8; 4], // A in, A out, B in, B out: 0 empty, 1 waiting, 2 fetching
    pub(super) tally: [u16; 28], // channel * 7 + (offered, handed over, overwritten, swallowed, cleared, planted, struck)
}

#[derive(Clone, Copy)]
pub(super) struct Answer {
    pub(super) machine: Machine,
    pub(super) number: u8,
    pub(super) byte: u8,
}

#[derive(Clone, Copy, Debug, PartialEq, Eq)]
pub(super) struct Explanation {
    pub(super) number: u8, // 0, or 2 for a group that there is not
    pub(super) input: u8, // 0 no such half, 1 mode 0, 2 enable off, 3 IBF 0, 4 STB low, 5 being read, 6 high
    pub(super) output: u8, // 0 no such half, 1 mode 0, 2 enable off, 3 OBF 0, 4 ACK low, 5 being written, 6 high
}

pub(super) fn power_up_of(part: u8, a: u8, b: u8, c: u8) -> Machine {
    Machine {
        part,
        phase: cycles::IDLE,
        place: 0,
        data: 0,
        word: cycles::POWER_UP_WORD,
        outside_a: a,
        outside_b: b,
        outside_c: c,
        latch: [0, 0, 0, 0],
        latch_c: 0,
        enable: 0,
        fill: [0, 0, 0, 0],
        tally: [0; 28],
    }
}

// Where nothing is said it is an 8255A, and idle lines are pulled down.
pub(super) fn power_up() -> Machine {
    power_up_of(parts::I8255A, 0, 0, 0)
}

// One event. Operands that the kind lacks are not looked at. A begun read is the only event that answers a byte, and the byte is that
// of the state before it.
pub(super) fn event(mut machine: Machine, kind: u8, first: u8, second: u8) -> Answer {
    let number = numbers::refusal(machine, kind, first);
    let accepted = if number == 0 { kind } else { NO_KIND };
    let byte = match accepted {
        1 => pins::ask(machine, first, pins::READ),
        _ => 0,
    };
    match accepted {
        0 => machine = cycles::reset(machine),
        1 => machine = cycles::begin_read(machine, first),
        2 => machine = cycles::end_cycle(machine),
        3 => machine = cycles::on_bus(machine, cycles::WRITING, first, second),
        5 => machine = edges::moved(machine, first, second),
        _ => {}
    }
    Answer {
        machine,
        number,
        byte,
    }
}

// What no event has as its kind, for one that is refused.
const NO_KIND: u8 = 6;

// The levels that an observer sees on the pins of port 0, 1 or 2.
pub(super) fn levels(machine: Machine, port: u8) -> u8 {
    pins::ask(machine, port, pins::LEVELS)
}

// A 1 for each pin of port 0, 1 or 2 that the chip drives.
pub(super) fn driven(machine: Machine, port: u8) -> u8 {
    pins::ask(machine, port, pins::DRIVEN)
}

// What is said of the two halves of a group's INTR, the input's and the output's, behind the number by which the call is refused.
pub(super) fn explain(machine: Machine, group: u8) -> Explanation {
    Explanation {
        number: digits::pick(group > 1, reasons::NO_SUCH_GROUP, 0),
        input: reasons::of_input(machine, group),
        output: reasons::of_output(machine, group),
    }
}

// What a word below 128, written to control, is about under a mode word: the role of the pin that it names.
pub(super) fn role_named(mode: u8, word: u8) -> u8 {
    words::role_of(mode, commands::pin_named(word))
}

// The channel whose flag the role is: 0 A in, 1 A out, 2 B in, 3 B out; 4 where it is none.
pub(super) fn flag_of(role: u8) -> usize {
    forcing::channel_of(role)
}
