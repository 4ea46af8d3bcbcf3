//! The first line of a rack's script: the bases that it has, and the rack that they make.
ghost use Rattle.std.specs.Prelude.{◌≡◌, unwrap_or};
ghost use Rattle.rack.specs.State.{built_of};
ghost use Rattle.text.specs.Answers.{line_of};
ghost use Rattle.script.specs.RackBases.{no_base, leading_base, bases_of_line, rack_of_line};

use arrayvec::ArrayVec;
use rack::refusals::BadRack;
use rack::{MOST_CARDS, Rack};
use text::line::{Line, byte_at};

// How many digits a base has.
const BASE_DIGITS: usize = 4;

// The base that digits write: none where they are fewer than four, or one of them is no digit.
fn base(digits: &[u8]) -> Option<u16>
    ensures { unwrap_or result no_base ≡ leading_base digits.now }
{
    if digits.len() < BASE_DIGITS {
        return None;
    }
    Some(u16::from_be_bytes([byte_at(digits, 0)?, byte_at(digits, 2)?]))
}

// The rack of the bases that an ended line names.
fn named(line: &[u8]) -> Result<Rack, BadRack>
    ensures { result ≡ built_of (bases_of_line line.now) }
{
    let mut bases = ArrayVec::<u16, MOST_CARDS>::new();
    for digits in line.chunks(BASE_DIGITS) {
        let base = base(digits).ok_or(BadRack)?;
        bases.try_push(base).map_err(|_full| BadRack)?;
    }
    Rack::new(&bases)
}

// The rack that a line names. A rest names none, however well it is formed.
#[tactic(auto, unfolding(crate::specs::RackBases::rack_of_line))]
pub(super) fn rack(line: Line<'_>) -> Result<Rack, BadRack>
    ensures { result ≡ rack_of_line (line_of line.entry) }
{
    match line {
        Line::Ended(bytes) => named(bytes),
        Line::Rest(_) => Err(BadRack),
    }
}
