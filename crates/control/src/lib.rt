//! Control words taken apart by shifts and masks: the modes and directions that a mode word sets up, the roles that it gives to the pins of
//! port C, and what a byte written to the control address says.
#![tactic(auto)]

ghost use Rattle.std.specs.Prelude.{◌≡◌};
ghost use Rattle.control.specs.Mode.{group_numbered};

pub mod chart;
pub mod lookup;
pub mod mode;
pub mod roles;
pub mod word;

/// The two groups that a mode word sets up: port A with its pins of port C, and port B with its own.
#[derive(Clone, Copy, Debug, PartialEq, Eq)]
pub enum Group {
    A,
    B,
}

impl Group {
    /// The group of a number, as scripts and C have it: 0 is A and 1 is B; `None` of any other.
    // An `Option` and no `TryFrom`: of a number without a group there is nothing more to tell.
    pub fn numbered(number: u8) -> Option<Group>
        ensures { result ≡ group_numbered number }
    {
        match number {
            0 => Some(Group::A),
            1 => Some(Group::B),
            _ => None,
        }
    }
}

/// Which of port A, the upper half of C, port B and the lower half of C are inputs.
#[derive(Clone, Copy, Debug, PartialEq, Eq)]
pub struct Directions {
    pub a: bool,
    pub upper: bool,
    pub b: bool,
    pub lower: bool,
}

/// What a pin of port C can be, with its number in the published table: free, as an input or an output, or a signal of a handshake.
#[derive(Clone, Copy, Debug, PartialEq, Eq)]
pub enum Role {
    Input = 0,
    Output = 1,
    Intr = 2,
    Ibf = 3,
    Obf = 4,
    Stb = 5,
    Ack = 6,
}
