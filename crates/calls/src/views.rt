//! What is seen of the chip that an image tells: the pins of a port, a tally, and why an INTR is low.
ghost use Rattle.std.specs.Prelude.{◌≡◌, true, false, IfSome, IfNone};
ghost use Rattle.chip.specs.Pins.{pins_of};
ghost use Rattle.image.specs.Good.{is_image};
ghost use Rattle.image.specs.Loaded.{state_of};
ghost use Rattle.calls.specs.Answers.{answered};
ghost use Rattle.calls.specs.Calls.{pins_given, pins_answer, tally_answer, explain_answer};

use super::refusals::{CallRefusal, answer};
use chip::{PORT_A, PORT_B, PORT_C, pins, reasons};
use control::Group;
use image::places::{CHANNEL_TALLIES, LENGTH, TALLIES};

// The last of the four channels, and of the seven tallies of each, by C's numbers.
const LAST_CHANNEL: u8 = 3;

const LAST_TALLY: u8 = 6;

// The bytes, if they are an image.
#[inline(always)]
#[tactic(auto, using(image::proofs::Long::is_long))]
fn checked(image: &[u8]) -> Option<&[u8; LENGTH]>
    ensures image { IfSome result (λ bytes. (is_image image.now ≡ true) × (bytes.now ≡ image.now)) }
    ensures none { IfNone result (is_image image.now ≡ false) }
{
    if image::check::good(image) {
        image.as_array()
    } else {
        None
    }
}

// The view of a port, in the final number.
#[inline(always)]
fn seen(image: &[u8; LENGTH], port: u8) -> u32
    ensures { result ≡ pins_given (pins_of (state_of image.now) port) }
{
    let pins = pins::pins(image, port);
    answer(Ok(u16::from_le_bytes([pins.levels, pins.driven])))
}

// That of port C stands alone: drawn in beside those of A and B it takes ten instructions more. It gives the final number, so that its call is a
// jump.
#[inline(never)]
fn seen_of_c(image: &[u8; LENGTH]) -> u32
    ensures { result ≡ pins_given (pins_of (state_of image.now) 2) }
{
    seen(image, PORT_C)
}

#[tactic(auto, unfolding(crate::specs::Calls::pins_answer))]
pub(super) fn pins(image: &[u8], port: u8) -> u32
    ensures { result ≡ pins_answer image.now port }
{
    match checked(image) {
        Some(image) => match port {
            PORT_A => seen(image, PORT_A),
            PORT_B => seen(image, PORT_B),
            PORT_C => seen_of_c(image),
            _ => answer(Err(CallRefusal::OutOfRange)),
        },
        None => answer(Err(CallRefusal::NoState)),
    }
}

// C numbers channels and tallies in the order in which an image has them, so that the two numbers tell where the two bytes stand. Behind the
// check nothing is read but these two.
#[tactic(auto, using(crate::proofs::Counted::counted), unfolding(crate::specs::Calls::tally_answer))]
pub(super) fn tally(image: &[u8], channel: u8, number: u8) -> Result<u16, CallRefusal>
    ensures { answered result ≡ tally_answer image.now channel number }
{
    let image = checked(image).ok_or(CallRefusal::NoState)?;
    if LAST_CHANNEL < channel || LAST_TALLY < number {
        return Err(CallRefusal::OutOfRange);
    }
    let at = TALLIES + CHANNEL_TALLIES * (channel as usize) + 2 * (number as usize);
    Ok(u16::from_le_bytes([image[at], image[at + 1]]))
}

#[tactic(auto, unfolding(crate::specs::Calls::explain_answer, chip::specs::Reasons::explained_of))]
pub(super) fn explain(image: &[u8], group: u8) -> Result<u16, CallRefusal>
    ensures { answered result ≡ explain_answer image.now group }
{
    let image = checked(image).ok_or(CallRefusal::NoState)?;
    // Each group has a call of its own, so that the compiler loads no more than is asked of that group.
    let explained = match Group::numbered(group).ok_or(CallRefusal::OutOfRange)? {
        Group::A => reasons::explain(image, Group::A),
        Group::B => reasons::explain(image, Group::B),
    };
    let halves = explained.halves();
    Ok(u16::from_le_bytes([halves.input, halves.output]))
}
