//! The functions that a host in C links, over a chip that it keeps as an image: power-up, an older image made one, the step, the pin
//! view, the tallies, and why an INTR is low. Each answer is one number: the refusal in its lowest byte, and what is given above it.
//! include/towanchor.h declares them.
#![tactic(auto)]

ghost use Rattle.std.specs.Prelude.{◌≡◌};
ghost use Rattle.calls.specs.Calls.{power_up_answer, power_up_image, power_up_image_with, power_up_as_answer, power_up_as_image, convert_answer, convert_image, step_answer, step_image, pins_answer, tally_answer, explain_answer};

use chip::{Chip, Edition, Levels};
use refusals::{CallRefusal, answer};

mod events;
mod refusals;
mod views;
mod written;

/// The chip at power-up, under the default levels. 8 where there are more or fewer bytes than an image has.
pub fn towanchor_power_up(image: &mut [u8]) -> u32
    ensures value { result ≡ power_up_answer image.old }
    ensures after { image.new ≡ power_up_image image.old }
{
    let chip = Chip::default();
    written::start(image, &chip)
}

/// The chip at power-up, under levels that the host names for ports A, B and C. 8 where there are more or fewer bytes than an image has.
pub fn towanchor_power_up_with_levels(
    image: &mut [u8],
    levels_a: u8,
    levels_b: u8,
    levels_c: u8,
) -> u32
    ensures value { result ≡ power_up_answer image.old }
    ensures after { image.new ≡ power_up_image_with image.old levels_a levels_b levels_c }
{
    let levels = Levels {
        a: levels_a,
        b: levels_b,
        c: levels_c,
    };
    written::start(image, &Chip::new(Edition::Older, levels))
}

/// The same of a chip of the edition that the host names, by its number in an image. 8 where there are more or fewer bytes than an image
/// has, or no such edition.
pub fn towanchor_power_up_as(
    image: &mut [u8],
    edition: u8,
    levels_a: u8,
    levels_b: u8,
    levels_c: u8,
) -> u32
    ensures value { result ≡ power_up_as_answer image.old edition }
    ensures after { image.new ≡ power_up_as_image image.old edition levels_a levels_b levels_c }
{
    let levels = Levels {
        a: levels_a,
        b: levels_b,
        c: levels_c,
    };
    written::start_as(image, edition, levels)
}

/// An older image made the image of the same state. 8 where the bytes are no older image, or where there is not the room of an image.
pub fn towanchor_convert(older: &[u8], image: &mut [u8]) -> u32
    ensures value { result ≡ convert_answer older.now image.old }
    ensures after { image.new ≡ convert_image older.now image.old }
{
    answer(written::convert(older, image))
}

/// One event, with its number and the byte of an accepted read. 8 where the bytes are no image, before any other refusal.
#[tactic(auto, using(crate::proofs::OnChecked::by_length))]
pub fn towanchor_step(image: &mut [u8], kind: u8, first: u8, second: u8) -> u32
    ensures value { result ≡ step_answer image.old kind first second }
    ensures after { image.new ≡ step_image image.old kind first second }
{
    match image.as_mut_array() {
        Some(image) => events::step(image, kind, first, second),
        None => answer(Err(CallRefusal::NoState)),
    }
}

/// The levels of a port's pins, and a one for each that the chip drives. 8 where the bytes are no image, and then 2 where there is no such port.
pub fn towanchor_pins(image: &[u8], port: u8) -> u32
    ensures { result ≡ pins_answer image.now port }
{
    views::pins(image, port)
}

/// One of the seven tallies of one of the four channels. 8 where the bytes are no image, and then 2 where there is no such channel or tally.
pub fn towanchor_tally(image: &[u8], channel: u8, tally: u8) -> u32
    ensures { result ≡ tally_answer image.now channel tally }
{
    answer(views::tally(image, channel, tally))
}

/// What each half of a group's INTR is doing, and where it is low the first reason. 8 where the bytes are no image, and then 2 where there is no
/// such group.
pub fn towanchor_explain(image: &[u8], group: u8) -> u32
    ensures { result ≡ explain_answer image.now group }
{
    answer(views::explain(image, group))
}
