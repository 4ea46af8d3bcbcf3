//! One 8255A or 82C55A: its state, what it is at power-up, and what each event on the bus makes of it. A channel is named by its group and
//! its side, as the data sheet names it, and not by a type of both: most rules speak of one of the two alone. Where an address chooses a port, A
//! and B have an arm each, so that the compiler works out the way of each. The rules are functions over whoever holds a chip (holder.rt).
#![tactic(auto)]

ghost use Rattle.std.specs.Prelude.{◌≡◌};
ghost use Rattle.chip.specs.State.{edition_numbered, fresh_port, power_up_as, power_up, port_of, side_of, channel_of, tally_of};

pub mod accept;
pub mod channel;
mod device;
pub mod handshakes;
pub mod holder;
mod in_force;
mod outside;
pub mod pins;
mod reads;
pub mod reasons;
mod settings;
pub mod status;
mod writes;

use bus::Phase;
use channel::{Channel, Side, Tally};
use control::Group;

/// Port A or B: its two channels, and the levels put on its pins from outside. Data sheet: Ports A, B, and C.
#[derive(Clone, Copy, Debug, PartialEq, Eq)]
pub struct Port {
    pub input: Channel,
    pub output: Channel,
    pub outside: u8,
}

/// Port C: its output latch, and the levels put on its lines from outside. Data sheet: Ports A, B, and C.
#[derive(Clone, Copy, Debug, PartialEq, Eq)]
pub struct PortC {
    pub latch: u8,
    pub outside: u8,
}

/// The interrupt enables: INTE in A, INTE out A, and INTE B, which group B's two channels share. By default none is on. Data sheet: Interrupt
/// Control Functions.
#[derive(Clone, Copy, Debug, PartialEq, Eq, Default)]
pub struct Enables {
    pub input: bool,
    pub output: bool,
    pub b: bool,
}

/// All of the chip but the bus and the edition: the last mode word, the ports and the enables. The word is kept as the byte that was
/// written, since control reads it back, and what it sets up is asked of the byte.
#[derive(Clone, Copy, Debug, PartialEq, Eq)]
pub struct Core {
    pub word: u8,
    pub a: Port,
    pub b: Port,
    pub c: PortC,
    pub inte: Enables,
}

/// Which part the chip is, with the number that C has for it: the 8255A, or the later 82C55A, whose control word can be read back. No event
/// changes it.
#[derive(Clone, Copy, Debug, PartialEq, Eq)]
pub enum Edition {
    Older = 0,
    Newer = 1,
}

/// A chip: what runs on the bus, its edition, and the rest.
#[derive(Clone, Copy, Debug, PartialEq, Eq)]
pub struct Chip {
    pub phase: Phase,
    pub edition: Edition,
    pub core: Core,
}

/// The levels that the outside puts on the pins of the three ports. By default every line is low, as the backplane pulls idle lines down.
#[derive(Clone, Copy, Debug, PartialEq, Eq, Default)]
pub struct Levels {
    pub a: u8,
    pub b: u8,
    pub c: u8,
}

impl Levels {
    /// Every line high.
    pub const HIGH: Levels = Levels {
        a: 0xff,
        b: 0xff,
        c: 0xff,
    };
}

/// The address of port A on the bus. Outside levels name a port by the same number. Data sheet: Basic Operation.
pub const PORT_A: u8 = 0;

/// The address of port B, and its number.
pub const PORT_B: u8 = 1;

/// The address of port C, and its number.
pub const PORT_C: u8 = 2;

/// The address of the control word. It is no port, and has no levels. Data sheet: Basic Operation.
pub const CONTROL: u8 = 3;

/// The mode word at power-up and after a reset: all ports are inputs in mode 0. Data sheet: RESET.
pub const POWER_UP_WORD: u8 = 0x9b;

impl Edition {
    /// The edition of a number, as C has it; `None` where there is no such edition.
    // An `Option` and no `TryFrom`: of a number without an edition there is nothing more to tell.
    pub fn numbered(number: u8) -> Option<Edition>
        ensures { result ≡ edition_numbered number }
    {
        match number {
            0 => Some(Edition::Older),
            1 => Some(Edition::Newer),
            _ => None,
        }
    }
}

impl Port {
    fn new(outside: u8) -> Self
        ensures { result ≡ fresh_port outside }
    {
        Port {
            input: Channel::default(),
            output: Channel::default(),
            outside,
        }
    }

    fn channel(&self, side: Side) -> Channel
        ensures { result ≡ side_of self.now side }
    {
        match side {
            Side::Input => self.input,
            Side::Output => self.output,
        }
    }
}

impl Core {
    fn port(&self, group: Group) -> &Port
        ensures { result.now ≡ port_of self.now group }
    {
        match group {
            Group::A => &self.a,
            Group::B => &self.b,
        }
    }

    /// The channel of that group and side.
    pub fn channel(&self, group: Group, side: Side) -> Channel
        ensures { result ≡ channel_of self.now group side }
    {
        self.port(group).channel(side)
    }
}

impl Chip {
    /// The chip at power-up, of the edition and under the levels that the caller names.
    // Two arguments and no type of both: C and the journal have the edition as a number, and refuse it before there is a chip.
    pub fn new(edition: Edition, levels: Levels) -> Self
        ensures { result ≡ power_up_as edition levels }
    {
        Chip {
            phase: Phase::Idle,
            edition,
            core: Core {
                word: POWER_UP_WORD,
                a: Port::new(levels.a),
                b: Port::new(levels.b),
                c: PortC {
                    latch: 0,
                    outside: levels.c,
                },
                inte: Enables::default(),
            },
        }
    }

    /// What became of the bytes offered to a channel, or planted in it.
    pub fn tally(&self, group: Group, side: Side) -> Tally
        ensures { result ≡ tally_of self.now group side }
    {
        self.core.channel(group, side).tally
    }
}

impl Default for Chip {
    /// The chip at power-up where nothing is named: of the older edition, and every line low.
    fn default() -> Self
        ensures { result ≡ power_up }
    {
        Chip::new(Edition::Older, Levels::default())
    }
}
