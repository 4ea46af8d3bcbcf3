// The 8355 in a state that no single event gives it: at power-up, or put together by hand.
use super::answers::Answered;
use super::{answers, phases};
use i8355::{Chip8355, Port, Ports};

pub(super) fn at_power_up() -> Answered<Chip8355> {
    answers::put(Chip8355::new())
}

// Registers and levels that all differ, so that none can stand for another. They come in the middle of a cycle too.
fn registers_by_hand(ports: &mut Ports, name: u8) {
    if name == b'L' {
        *ports = Ports {
            a: Port {
                direction: 0x3c,
                latch: 0xa5,
                outside: 0x0f,
            },
            b: Port {
                direction: 0xc3,
                latch: 0x5a,
                outside: 0xf0,
            },
        };
    }
}

pub(super) fn put(chip: &mut Chip8355, name: u8) {
    phases::by_hand(&mut chip.phase, name);
    registers_by_hand(&mut chip.ports, name);
}
