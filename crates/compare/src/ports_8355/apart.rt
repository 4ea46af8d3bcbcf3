// The second model of the 8355's two ports, written apart from the proved one, to be held against it. It uses nothing but itself, keeps
// the ports in registers by their addresses, and puts levels together pin by pin. Each function answers for every value of the
// machine, reached or not. Numbers stand where the proved crates have enums and structs, since a form that both had could hide a fault of
// both.

#[derive(Clone, Copy, Debug, PartialEq, Eq)]
pub(super) struct Machine {
    pub(super) phase: u8, // 0 idle, 1 reading, 2 writing
    pub(super) place: u8, // the address being read or written; 0 when idle
    pub(super) data: u8, // the byte being written; 0 when none is
    pub(super) register: [u8; 4], // by address: the latches of A and B, and their directions, in which a 1 is an output
    pub(super) outside: [u8; 2], // outside levels of A and B
}

#[derive(Clone, Copy)]
pub(super) struct Answer {
    pub(super) machine: Machine,
    pub(super) number: u8,
    pub(super) byte: u8,
}

// The phases of the bus.
const IDLE: u8 = 0;

const READING: u8 = 1;

const WRITING: u8 = 2;

// The kinds of events.
const RESET: u8 = 0;

const BEGIN_READ: u8 = 1;

const END: u8 = 2;

const BEGIN_WRITE: u8 = 3;

const LEVELS: u8 = 5;

// The number between them that is no kind.
const GAP: u8 = 4;

// The last operands that there are, and where the directions stand behind the latches.
const LAST_ADDRESS: u8 = 3;

const LAST_PORT: u8 = 1;

const DIRECTIONS: usize = 2;

// Every pin is an input, and idle lines are pulled up.
pub(super) fn power_up() -> Machine {
    Machine {
        phase: IDLE,
        place: 0,
        data: 0,
        register: [0, 0, 0, 0],
        outside: [0xff, 0xff],
    }
}

// One event. A refused one changes nothing. A begun read is the only one that answers a byte, and the byte is that of the state before it.
pub(super) fn event(machine: Machine, kind: u8, first: u8, second: u8) -> Answer {
    let number = refusal(machine.phase, kind, first);
    if number != 0 {
        return Answer {
            machine,
            number,
            byte: 0,
        };
    }
    let byte = if kind == BEGIN_READ {
        levels(machine, first)
    } else {
        0
    };
    Answer {
        machine: accepted(machine, kind, first, second),
        number,
        byte,
    }
}

// The number by which an event is refused, or 0. The numbers are gone through from the last to the first, and each that applies takes the
// place of those behind it. Operands that a kind lacks are not looked at.
fn refusal(phase: u8, kind: u8, first: u8) -> u8 {
    let begins = kind == BEGIN_READ || kind == BEGIN_WRITE;
    let mut number = 0;
    if kind == END && phase == IDLE {
        number = 5;
    }
    if begins && phase != IDLE {
        number = 4;
    }
    if kind == BEGIN_READ && first > LAST_PORT {
        number = 3;
    }
    if (begins && first > LAST_ADDRESS) || (kind == LEVELS && first > LAST_PORT) {
        number = 2;
    }
    if kind == GAP || kind > LEVELS {
        number = 1;
    }
    number
}

fn accepted(machine: Machine, kind: u8, first: u8, second: u8) -> Machine {
    match kind {
        RESET => on_bus(turned_in(machine), IDLE, 0, 0),
        BEGIN_READ => on_bus(machine, READING, first, 0),
        END => on_bus(stored(machine), IDLE, 0, 0),
        BEGIN_WRITE => on_bus(machine, WRITING, first, second),
        LEVELS => put_on(machine, first, second),
        _ => machine,
    }
}

fn on_bus(mut machine: Machine, phase: u8, place: u8, data: u8) -> Machine {
    machine.phase = phase;
    machine.place = place;
    machine.data = data;
    machine
}

// Both ports become inputs. What the latches hold stays behind them.
fn turned_in(mut machine: Machine) -> Machine {
    machine.register[DIRECTIONS] = 0;
    machine.register[DIRECTIONS + 1] = 0;
    machine
}

// A byte on its way goes into the register that it is addressed to, whole, whatever the directions. A read has nothing to store, and
// where there is no register nothing is stored.
fn stored(mut machine: Machine) -> Machine {
    if machine.phase != WRITING {
        return machine;
    }
    let address = machine.place;
    if address <= LAST_ADDRESS {
        machine.register[address as usize] = machine.data;
    }
    machine
}

fn put_on(mut machine: Machine, port: u8, level: u8) -> Machine {
    if port <= LAST_PORT {
        machine.outside[port as usize] = level;
    }
    machine
}

// The levels on the pins of a port, which are what a read of it answers too. Where there is no port there are no pins.
pub(super) fn levels(machine: Machine, port: u8) -> u8 {
    if port > LAST_PORT {
        return 0;
    }
    let at = port as usize;
    gathered(
        driven(machine, port),
        machine.register[at],
        machine.outside[at],
    )
}

// A 1 for each pin of a port that the chip drives.
pub(super) fn driven(machine: Machine, port: u8) -> u8 {
    if port > LAST_PORT {
        return 0;
    }
    machine.register[port as usize + DIRECTIONS]
}

// The byte of eight pins, one after the other.
fn gathered(outputs: u8, latch: u8, outside: u8) -> u8 {
    let mut byte = 0;
    for pin in 0..8u8 {
        byte |= shown(outputs, latch, outside, 1 << pin);
    }
    byte
}

// What one pin adds to the byte: an output shows its latch, an input what is put on it from outside.
fn shown(outputs: u8, latch: u8, outside: u8, pin: u8) -> u8 {
    if outputs & pin == 0 {
        return outside & pin;
    }
    latch & pin
}
