//! The 8355: two ports, each pin of which is an input or an output by itself, as a device on the bus.
#![tactic(auto)]

ghost use Rattle.std.specs.Prelude.{◌≡◌};
ghost use Rattle.i8355.specs.State.{power_up};

mod device;

use bus::Phase;

/// A port: which of its pins are outputs, by the ones of its data direction register; its output latch; and the levels that the outside puts
/// on its pins. Data sheet of the 8355: I/O Section.
#[derive(Clone, Copy, Debug, PartialEq, Eq)]
pub struct Port {
    pub direction: u8,
    pub latch: u8,
    pub outside: u8,
}

/// The device without what runs on the bus.
#[derive(Clone, Copy, Debug, PartialEq, Eq)]
pub struct Ports {
    pub a: Port,
    pub b: Port,
}

/// A device. By default it is as at power-up.
#[derive(Clone, Copy, Debug, PartialEq, Eq)]
pub struct Chip8355 {
    pub phase: Phase,
    pub ports: Ports,
}

/// The address of port A. Outside levels name it by the same number.
pub const PORT_A: u8 = 0;

/// The address of port B, and its number.
pub const PORT_B: u8 = 1;

/// The address of port A's data direction register.
pub const DIRECTION_A: u8 = 2;

/// The address of port B's data direction register.
pub const DIRECTION_B: u8 = 3;

impl Chip8355 {
    /// The device at power-up: an idle bus, and only inputs, on lines that are high.
    pub fn new() -> Self
        ensures { result ≡ power_up }
    {
        let port = Port {
            direction: 0,
            latch: 0,
            outside: 0xff,
        };
        Chip8355 {
            phase: Phase::Idle,
            ports: Ports { a: port, b: port },
        }
    }
}

impl Default for Chip8355 {
    ghost is_default = { λ chip. chip ≡ power_up };

    fn default() -> Self {
        Chip8355::new()
    }
}
