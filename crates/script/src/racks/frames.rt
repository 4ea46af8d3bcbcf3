//! The further lines of a rack's script: what one says.
ghost use Rattle.std.specs.Prelude.{◌≡◌};
ghost use Rattle.bus.specs.Answers.{kind_number};
ghost use Rattle.text.specs.Answers.{line_of};
ghost use Rattle.script.specs.RackFrames.{operand_bytes, event_named, rack_frame_of, rack_frame_in, rack_frame_told};

use bus::kinds::Kind;
use rack::events::RackEvent;
use text::line::{Line, byte_at};

// How many bytes the operands of a kind have: an address has two.
#[tactic(auto, unfolding(crate::specs::RackFrames::operand_bytes))]
fn operand_bytes(kind: Kind) -> u8
    ensures { result ≡ operand_bytes (kind_number kind) }
{
    match kind {
        Kind::Reset | Kind::EndCycle => 0,
        Kind::BeginRead => 2,
        Kind::BeginWrite | Kind::OutsideLevels => 3,
    }
}

// The event that a kind and the bytes behind it name: the first two of a cycle are its address.
fn named(kind: Kind, first: u8, second: u8, third: u8) -> RackEvent
    ensures { Some result ≡ event_named (kind_number kind) first second third }
{
    let address = u16::from_be_bytes([first, second]);
    match kind {
        Kind::Reset => RackEvent::Reset,
        Kind::BeginRead => RackEvent::BeginRead(address),
        Kind::EndCycle => RackEvent::EndCycle,
        Kind::BeginWrite => RackEvent::BeginWrite(address, third),
        Kind::OutsideLevels => RackEvent::OutsideLevels(u16::from(first), second, third),
    }
}

// The event of a kind and exactly its operands, in two digits to a byte. Apart from the frame of a device, since there a byte is an operand, and
// here an address has two.
#[tactic(auto, unfolding(crate::specs::RackFrames::rack_frame_of, crate::specs::RackFrames::is_rack_frame))]
fn frame(line: &[u8]) -> Option<RackEvent>
    ensures { rack_frame_told result ≡ rack_frame_of line.now }
{
    let number = byte_at(line, 0)?;
    let first = byte_at(line, 2)?;
    let second = byte_at(line, 4)?;
    let third = byte_at(line, 6)?;
    let kind = Kind::numbered(u16::from(number))?;
    if line.len() != 2 + 2 * usize::from(operand_bytes(kind)) {
        return None;
    }
    Some(named(kind, first, second, third))
}

// The event that a line says; `None` where it is no frame. A rest says nothing, however well it is formed.
#[tactic(auto, unfolding(crate::specs::RackFrames::rack_frame_in))]
pub(super) fn event(line: Line<'_>) -> Option<RackEvent>
    ensures { rack_frame_told result ≡ rack_frame_in (line_of line.entry) }
{
    match line {
        Line::Ended(bytes) => frame(bytes),
        Line::Rest(_) => None,
    }
}
