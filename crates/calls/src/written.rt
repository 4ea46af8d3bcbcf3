//! An image that is written whole: that of a chip at power-up, or of the state that an older image tells.
ghost use Rattle.std.specs.Prelude.{◌≡◌};
ghost use Rattle.image.specs.Slices.{saved_in};
ghost use Rattle.calls.specs.Answers.{answered};
ghost use Rattle.calls.specs.Calls.{power_up_answer, power_up_as_answer, power_up_as_image, convert_answer, convert_image};

use super::refusals::{CallRefusal, answer};
use chip::{Chip, Edition, Levels};
use image::older;
use image::places::LENGTH;

// A new image, whatever stood there. In the final number, so that nothing stands between it and the caller.
#[tactic(auto, unfolding(image::specs::Slices::saved_in))]
pub(super) fn start(image: &mut [u8], chip: &Chip) -> u32
    ensures value { result ≡ power_up_answer image.old }
    ensures after { image.new ≡ saved_in image.old chip.now }
{
    if image.len() != LENGTH {
        return answer(Err(CallRefusal::NoState));
    }
    image::save::state(image, chip);
    answer(Ok(0))
}

// The same of a chip of the edition that has the number.
#[tactic(auto, using(crate::proofs::Rewritten::by_edition))]
pub(super) fn start_as(image: &mut [u8], number: u8, levels: Levels) -> u32
    ensures value { result ≡ power_up_as_answer image.old number }
    ensures after { image.new ≡ power_up_as_image image.old number levels.a levels.b levels.c }
{
    match Edition::numbered(number) {
        Some(edition) => start(image, &Chip::new(edition, levels)),
        None => answer(Err(CallRefusal::NoEdition)),
    }
}

#[tactic(auto, using(crate::proofs::Rewritten::from_older))]
pub(super) fn convert(older: &[u8], image: &mut [u8]) -> Result<u16, CallRefusal>
    ensures value { answered result ≡ convert_answer older.now image.old }
    ensures after { image.new ≡ convert_image older.now image.old }
{
    if !older::good(older) {
        return Err(CallRefusal::NoState);
    }
    let fits = image.len() == LENGTH;
    if !fits {
        return Err(CallRefusal::NoState);
    }
    older::convert(older, image);
    Ok(0)
}
