//! Why a group's INTR is low: of each half the first reason, or that it is high; and the numbers of what is said.
ghost use Rattle.std.specs.Prelude.{◌≡◌};
ghost use Rattle.chip.specs.Reasons.{reason_of, one_way, explained_in, explained_of, reason_number, halves_of};

use super::Chip;
use super::channel::Side;
use super::handshakes::line_pin;
use super::holder::Holder;
use super::status::flag;
use control::mode::Mode;
use control::{Group, mode};

/// What one half of an INTR is doing, with the number of what is said of it: low for one of four reasons, or high.
#[derive(Clone, Copy, Debug, PartialEq, Eq)]
pub enum Reason {
    EnableOff = 2,
    FlagWrong = 3,
    LineLow = 4,
    OwnCycle = 5,
    High = 6,
}

/// What is said of a group's INTR. A group in mode 0 has none; mode 1 has the half of one side, and mode 2 both, the input's first.
#[derive(Clone, Copy, Debug, PartialEq, Eq)]
pub enum Explained {
    ModeZero,
    InputHalf(Reason),
    OutputHalf(Reason),
    BothHalves(Reason, Reason),
}

/// What is said, in numbers, of a half that there is none of, since the port goes the other way in mode 1. The numbers of the reasons go on from here.
pub const NO_HALF: u8 = 0;

/// What is said, in numbers, of either half of a group in mode 0.
pub const MODE_ZERO: u8 = 1;

/// What is said of each half, in numbers, as C has it.
#[derive(Clone, Copy, Debug, PartialEq, Eq)]
pub struct Halves {
    pub input: u8,
    pub output: u8,
}

impl Reason {
    fn number(self) -> u8
        ensures { result ≡ reason_number self }
    {
        self as u8
    }
}

impl Explained {
    /// What is said, in numbers.
    pub fn halves(self) -> Halves
        ensures { result ≡ halves_of self }
    {
        match self {
            Explained::ModeZero => Halves {
                input: MODE_ZERO,
                output: MODE_ZERO,
            },
            Explained::InputHalf(reason) => Halves {
                input: reason.number(),
                output: NO_HALF,
            },
            Explained::OutputHalf(reason) => Halves {
                input: NO_HALF,
                output: reason.number(),
            },
            Explained::BothHalves(input, output) => Halves {
                input: input.number(),
                output: output.number(),
            },
        }
    }
}

// The first of the four reasons that holds.
#[inline(always)]
#[tactic(auto, unfolding(crate::specs::Reasons::reason_of))]
fn first_reason<Home, H: Holder<Home>>(holder: &H, group: Group, side: Side) -> Reason
    ensures { result ≡ reason_of (H.way.chip holder.now) group side }
{
    if !holder.enables().enables(group, side) {
        Reason::EnableOff
    } else if !flag(holder, group, side) {
        Reason::FlagWrong
    } else if !bits::bit(holder.outside_c(), line_pin(group, side)) {
        Reason::LineLow
    } else if holder.runs(group, side) {
        Reason::OwnCycle
    } else {
        Reason::High
    }
}

// In mode 1 a port goes one way.
#[inline(always)]
fn one_way<Home, H: Holder<Home>>(holder: &H, group: Group) -> Explained
    ensures { result ≡ one_way (H.way.chip holder.now) group }
{
    if mode::output(holder.word(), group) {
        Explained::OutputHalf(first_reason(holder, group, Side::Output))
    } else {
        Explained::InputHalf(first_reason(holder, group, Side::Input))
    }
}

/// Explains the INTR of a group. Data sheet: Interrupt Control Functions, Input and Output Control Signal Definition (INTR).
#[inline(always)]
#[tactic(auto, unfolding(crate::specs::Reasons::explained_in))]
pub fn explain<Home, H: Holder<Home>>(holder: &H, group: Group) -> Explained
    ensures { result ≡ explained_in (H.way.chip holder.now) group }
{
    match Mode::of(holder.word(), group) {
        Mode::Zero => Explained::ModeZero,
        Mode::One => one_way(holder, group),
        Mode::Two => Explained::BothHalves(
            first_reason(holder, group, Side::Input),
            first_reason(holder, group, Side::Output),
        ),
    }
}

impl Chip {
    /// Explains the INTR of a group. Data sheet: Interrupt Control Functions, Input and Output Control Signal Definition (INTR).
    pub fn explain(&self, group: Group) -> Explained
        ensures { result ≡ explained_in self.now group }
    {
        explain(self, group)
    }

    /// Explains the INTR of the group of that number, as scripts and C have it: 0 is A and 1 is B; `None` of any other.
    #[tactic(auto, unfolding(crate::specs::Reasons::explained_of, control::specs::Mode::group_numbered))]
    pub fn explain_numbered(&self, number: u8) -> Option<Explained>
        ensures { result ≡ explained_of self.now number }
    {
        let group = Group::numbered(number)?;
        Some(self.explain(group))
    }
}
