//! The modes and directions that a mode word sets up. Bit 7 counts as set, and is not looked at. What is asked of a word is one expression of
//! it, which its proof computes at every word: so tests of masks are joined by `|` and not by `||`. Of group A it is asked of bits 6 to 4: 010 is
//! a mode 1 output, 011 a mode 1 input, and what has bit 6 set is mode 2.
ghost use Rattle.std.specs.Prelude.{◌≡◌};
ghost use Rattle.control.specs.Mode.{mode_of, mode_number, directions_of, strobed_input, strobed_output, output_of};

use crate::{Directions, Group};

/// The mode of a group. Mode 2 is group A's alone. Data sheet: Mode Selection.
#[derive(Clone, Copy, Debug, PartialEq, Eq)]
pub enum Mode {
    Zero,
    One,
    Two,
}

impl Mode {
    /// The mode that the word sets the group to. Data sheet: Mode Definition Format.
    #[tactic(auto, using(crate::proofs::UnderMasks::a_mode_by_mask, crate::proofs::UnderMasks::b_mode_by_mask))]
    pub fn of(word: u8, group: Group) -> Mode
        ensures { mode_number result ≡ mode_of word group }
    {
        match group {
            Group::A => match (word >> 5) & 3 {
                0 => Mode::Zero,
                1 => Mode::One,
                _ => Mode::Two,
            },
            Group::B => match (word >> 2) & 1 {
                0 => Mode::Zero,
                _ => Mode::One,
            },
        }
    }
}

/// Whether port A, the upper half of C, port B and the lower half of C are set to input. Data sheet: Mode Definition Format. The sheet's chart
/// says the same row by row (chart.rt): both have one contract, so that the chart is proved to be these four bits.
#[tactic(auto, using(crate::proofs::ByBits::directions_by_bits))]
pub fn directions(word: u8) -> Directions
    ensures { result ≡ directions_of word }
{
    Directions {
        a: bits::bit(word, 4),
        upper: bits::bit(word, 3),
        b: bits::bit(word, 1),
        lower: bits::bit(word, 0),
    }
}

/// Whether the group's port takes bytes in by STB. Data sheet: Mode 1 (Strobed Input/Output), Mode 2 (Strobed Bidirectional Bus I/O).
#[tactic(auto, using(crate::proofs::UnderMasks::a_takes_by_mask, crate::proofs::UnderMasks::b_takes_by_mask))]
pub fn strobed_input(word: u8, group: Group) -> bool
    ensures { result ≡ strobed_input word group }
{
    match group {
        Group::A => word & 0x70 > 0x20,
        Group::B => word & 0x06 == 0x06,
    }
}

/// Whether the group's port gives bytes out by ACK. Data sheet: Mode 1 (Strobed Input/Output), Mode 2 (Strobed Bidirectional Bus I/O).
#[tactic(auto, using(crate::proofs::UnderMasks::a_gives_by_mask, crate::proofs::UnderMasks::b_gives_by_mask))]
pub fn strobed_output(word: u8, group: Group) -> bool
    ensures { result ≡ strobed_output word group }
{
    match group {
        Group::A => (word & 0x40 == 0x40) | (word & 0x30 == 0x20),
        Group::B => word & 0x06 == 0x04,
    }
}

/// Whether the group's port is an output, so that it stores what is written to it.
#[tactic(auto, using(crate::proofs::UnderMasks::a_stores_by_mask, crate::proofs::UnderMasks::b_stores_by_mask))]
pub fn output(word: u8, group: Group) -> bool
    ensures { result ≡ output_of word group }
{
    match group {
        Group::A => word & 0x50 != 0x10,
        Group::B => word & 0x02 == 0,
    }
}
