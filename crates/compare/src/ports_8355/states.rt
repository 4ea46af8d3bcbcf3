// Arbitrary states of the 8355: every field is drawn by itself, also a cycle at a place that there is not, to which no history leads. And a state of
// the proved model in the form of the second one.
use super::super::random::{byte, next};
use super::super::{states, twins};
use super::apart::Machine;
use i8355::{Chip8355, Port, Ports};

fn port(number: u64) -> Port {
    Port {
        direction: byte(number),
        latch: byte(number >> 8),
        outside: byte(number >> 16),
    }
}

pub(super) fn arbitrary(seed: u64) -> Chip8355 {
    let number = next(seed);
    let ports = next(number);
    Chip8355 {
        phase: states::phase(number, number >> 2, i8355::DIRECTION_B),
        ports: Ports {
            a: port(ports),
            b: port(ports >> 24),
        },
    }
}

pub(super) fn twin(chip: &Chip8355) -> Machine {
    let bus = twins::running(chip.phase);
    Machine {
        phase: bus.phase,
        place: bus.place,
        data: bus.data,
        register: [
            chip.ports.a.latch,
            chip.ports.b.latch,
            chip.ports.a.direction,
            chip.ports.b.direction,
        ],
        outside: [chip.ports.a.outside, chip.ports.b.outside],
    }
}
