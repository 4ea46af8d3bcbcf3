//! A line of a script, and what it says.
ghost use Rattle.std.specs.Prelude.{◌≡◌, drop};
ghost use Rattle.text.specs.Digits.{no_byte};
ghost use Rattle.text.specs.Frames.{leading_byte, frame_of, frame_in};
ghost use Rattle.text.specs.Answers.{if_below, frame_told, line_of, bytes_lent};

use crate::digits;
use bus::events::Event;
use bus::kinds::Kind;

/// A line of a text.
#[derive(Clone, Copy, Debug, PartialEq, Eq)]
pub enum Line<'a> {
    /// The bytes in front of an LF.
    Ended(&'a [u8]),
    /// The bytes behind the last LF.
    Rest(&'a [u8]),
}

impl<'a> Line<'a> {
    /// The bytes of the line, ended or not.
    pub fn bytes(self) -> &'a [u8]
        ensures { result ≡ bytes_lent self.entry }
    {
        match self {
            Line::Ended(bytes) | Line::Rest(bytes) => bytes,
        }
    }

    /// The event that the line says; `None` where it is no frame. A rest says nothing, however well it is formed.
    // By a match, here and in `script::racks`: a function that gives the bytes of an ended line would save no line.
    #[tactic(auto, unfolding(crate::specs::Frames::frame_in))]
    pub fn event(self) -> Option<Event>
        ensures { frame_told result ≡ frame_in (line_of self.entry) }
    {
        match self {
            Line::Ended(bytes) => event(bytes),
            Line::Rest(_) => None,
        }
    }
}

/// The byte that two digits make at that place of a line: `None` where they are no two digits, and 0 where the line is over.
// By a place, since a frame has each of its bytes at a place of its own.
#[tactic(auto, unfolding(crate::specs::Frames::leading_byte))]
pub fn byte_at(line: &[u8], at: usize) -> Option<u8>
    ensures { result ≡ if_below no_byte (leading_byte (drop at line.now)) }
{
    match &line[at.min(line.len())..] {
        [] => Some(0),
        [_] => None,
        [high, low, ..] => digits::pair(*high, *low),
    }
}

// The event of a kind and exactly its operands, each of them two digits.
#[tactic(auto, unfolding(crate::specs::Frames::frame_of, crate::specs::Frames::is_frame))]
fn event(line: &[u8]) -> Option<Event>
    ensures { frame_told result ≡ frame_of line.now }
{
    let number = byte_at(line, 0)?;
    let first = byte_at(line, 2)?;
    let second = byte_at(line, 4)?;
    let kind = Kind::numbered(u16::from(number))?;
    if line.len() != 2 + 2 * usize::from(kind.operands()) {
        return None;
    }
    // Its kind is asked for once more: an event of a kind would be one more public function, for this one caller.
    Event::numbered(number, first, second)
}
