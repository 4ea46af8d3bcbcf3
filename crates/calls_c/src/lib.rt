//! The calls of a chip for C: each is that of the crate calls under the same name, which a static library has to state again. include/towanchor.h
//! declares them.
#![tactic(auto)]

ghost use Rattle.std.specs.Prelude.{◌≡◌};
ghost use Rattle.calls.specs.Calls.{power_up_answer, power_up_image, power_up_image_with, power_up_as_answer, power_up_as_image, convert_answer, convert_image, step_answer, step_image, pins_answer, tally_answer, explain_answer};

/// The chip at power-up, under the default levels. 8 where there are more or fewer bytes than an image has.
#[unsafe(no_mangle)]
pub extern "C" fn towanchor_power_up(image: &mut [u8]) -> u32
    ensures value { result ≡ power_up_answer image.old }
    ensures after { image.new ≡ power_up_image image.old }
{
    calls::towanchor_power_up(image)
}

/// The chip at power-up, under levels that the host names for ports A, B and C. 8 where there are more or fewer bytes than an image has.
#[unsafe(no_mangle)]
pub extern "C" fn towanchor_power_up_with_levels(
    image: &mut [u8],
    levels_a: u8,
    levels_b: u8,
    levels_c: u8,
) -> u32
    ensures value { result ≡ power_up_answer image.old }
    ensures after { image.new ≡ power_up_image_with image.old levels_a levels_b levels_c }
{
    calls::towanchor_power_up_with_levels(image, levels_a, levels_b, levels_c)
}

/// The same of a chip of the edition that the host names, by its number in an image. 8 where there are more or fewer bytes than an image
/// has, or no such edition.
#[unsafe(no_mangle)]
pub extern "C" fn towanchor_power_up_as(
    image: &mut [u8],
    edition: u8,
    levels_a: u8,
    levels_b: u8,
    levels_c: u8,
) -> u32
    ensures value { result ≡ power_up_as_answer image.old edition }
    ensures after { image.new ≡ power_up_as_image image.old edition levels_a levels_b levels_c }
{
    calls::towanchor_power_up_as(image, edition, levels_a, levels_b, levels_c)
}

/// An older image made the image of the same state. 8 where the bytes are no older image, or where there is not the room of an image.
#[unsafe(no_mangle)]
pub extern "C" fn towanchor_convert(older: &[u8], image: &mut [u8]) -> u32
    ensures value { result ≡ convert_answer older.now image.old }
    ensures after { image.new ≡ convert_image older.now image.old }
{
    calls::towanchor_convert(older, image)
}

/// One event, with its number and the byte of an accepted read. 8 where the bytes are no image, before any other refusal.
#[unsafe(no_mangle)]
pub extern "C" fn towanchor_step(image: &mut [u8], kind: u8, first: u8, second: u8) -> u32
    ensures value { result ≡ step_answer image.old kind first second }
    ensures after { image.new ≡ step_image image.old kind first second }
{
    calls::towanchor_step(image, kind, first, second)
}

/// The levels of a port's pins, and a one for each that the chip drives. 8 where the bytes are no image, and then 2 where there is no such port.
#[unsafe(no_mangle)]
pub extern "C" fn towanchor_pins(image: &[u8], port: u8) -> u32
    ensures { result ≡ pins_answer image.now port }
{
    calls::towanchor_pins(image, port)
}

/// One of the seven tallies of one of the four channels. 8 where the bytes are no image, and then 2 where there is no such channel or tally.
#[unsafe(no_mangle)]
pub extern "C" fn towanchor_tally(image: &[u8], channel: u8, tally: u8) -> u32
    ensures { result ≡ tally_answer image.now channel tally }
{
    calls::towanchor_tally(image, channel, tally)
}

/// What each half of a group's INTR is doing, and where it is low the first reason. 8 where the bytes are no image, and then 2 where there is no
/// such group.
#[unsafe(no_mangle)]
pub extern "C" fn towanchor_explain(image: &[u8], group: u8) -> u32
    ensures { result ≡ explain_answer image.now group }
{
    calls::towanchor_explain(image, group)
}
