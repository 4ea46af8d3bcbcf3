//! A script as text: a byte is two digits, a frame is a kind and its operands, and a line ends with LF.
#![tactic(auto)]

pub mod digits;
pub mod line;
pub mod lines;

/// What ends a line.
pub const LF: u8 = 10;
