//! What differs between the four channels: when the mode word strobes them, the pin of their line, their enable, their own cycle.
ghost use Rattle.std.specs.Prelude.{◌≡◌};
ghost use Rattle.chip.specs.Handshakes.{own_address, strobed, line_pin, enable_of, running};

use super::channel::Side;
use super::{Enables, PORT_A, PORT_B};
use bus::Phase;
use control::{Group, mode};

/// The pin of port C that is STB of group A, where port A takes bytes in. Data sheet: Mode Definition Summary.
pub const STB_A: u8 = 4;

/// The pin of port C that is ACK of group A, where port A gives bytes out. Data sheet: Mode Definition Summary.
pub const ACK_A: u8 = 6;

/// The pin of port C that is group B's line: its STB where port B is an input, its ACK where it is an output. Data sheet: Mode Definition
/// Summary.
pub const LINE_B: u8 = 2;

/// The pin of port C that is IBF of group A, where port A takes bytes in. Data sheet: Mode Definition Summary.
pub const IBF_A: u8 = 5;

/// The pin of port C that is OBF of group A, where port A gives bytes out. Data sheet: Mode Definition Summary.
pub const OBF_A: u8 = 7;

/// The pin of port C that is group B's flag: its IBF where port B is an input, its OBF where it is an output. Data sheet: Mode Definition
/// Summary.
pub const FLAG_B: u8 = 1;

// Whether the bus finds the group's port at the address.
fn own_address(address: u8, group: Group) -> bool
    ensures { result ≡ own_address address group }
{
    match group {
        Group::A => address == PORT_A,
        Group::B => address == PORT_B,
    }
}

/// The pin of port C that is the channel's STB or ACK, where the mode word strobes the channel. Data sheet: Mode Definition Summary.
pub fn line_pin(group: Group, side: Side) -> u8
    ensures { result ≡ line_pin group side }
{
    match (group, side) {
        (Group::A, Side::Input) => STB_A,
        (Group::A, Side::Output) => ACK_A,
        (Group::B, _) => LINE_B,
    }
}

/// Whether the channel's own cycle runs: a read of its port for an input, a write to it for an output.
pub fn running(phase: Phase, group: Group, side: Side) -> bool
    ensures { result ≡ running phase group side }
{
    match (side, phase) {
        (Side::Input, Phase::Reading(address)) => own_address(address, group),
        (Side::Output, Phase::Writing(address, _)) => own_address(address, group),
        _ => false,
    }
}

impl Enables {
    /// Whether the channel's interrupt is enabled. Data sheet: Interrupt Control Functions.
    pub fn enables(&self, group: Group, side: Side) -> bool
        ensures { result ≡ enable_of self.now group side }
    {
        match (group, side) {
            (Group::A, Side::Input) => self.input,
            (Group::A, Side::Output) => self.output,
            (Group::B, _) => self.b,
        }
    }
}

/// Whether the mode word strobes the channel. Data sheet: Mode Definition Format.
pub fn strobes(word: u8, group: Group, side: Side) -> bool
    ensures { result ≡ strobed word group side }
{
    match side {
        Side::Input => mode::strobed_input(word, group),
        Side::Output => mode::strobed_output(word, group),
    }
}
