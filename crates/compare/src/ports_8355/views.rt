// What a model of the 8355 shows and keeps after an event, in one form for both models.
use super::super::proved::Stepped;
use super::super::random;
use super::apart::{Answer, Machine};
use super::{apart, states};
use bus::Pins;
use bus::devices::Device;
use i8355::Chip8355;

// The answer; the pins of ports 0, 1 and 2 and of one above; and all that is kept.
#[derive(Clone, Copy, Debug, PartialEq, Eq)]
pub(crate) struct View {
    number: u8,
    byte: u8,
    pins: [Pins; 4],
    machine: Machine,
}

// A port above 2, of which there is none.
pub(super) fn above(number: u64) -> u8 {
    3 + random::byte(number >> 48) % 253
}

pub(super) fn of_proved(last: &Stepped<Chip8355>, above: u8) -> View {
    let chip = &last.device;
    View {
        number: last.number,
        byte: last.byte,
        pins: [chip.pins(0), chip.pins(1), chip.pins(2), chip.pins(above)],
        machine: states::twin(chip),
    }
}

pub(super) fn of_apart(last: &Answer, above: u8) -> View {
    let machine = last.machine;
    let pins = |port| Pins {
        levels: apart::levels(machine, port),
        driven: apart::driven(machine, port),
    };
    View {
        number: last.number,
        byte: last.byte,
        pins: [pins(0), pins(1), pins(2), pins(above)],
        machine,
    }
}
