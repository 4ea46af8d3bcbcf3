//! The journal of a host: the events that it passed to a chip, logged in words of 32 bits, and its trim, which keeps in the same room those
//! that changed the chip. include/towanchor.h declares towanchor_trim.
#![tactic(auto)]

ghost use Rattle.std.specs.Prelude.{◌≡◌};
ghost use Rattle.chip.specs.State.{edition_number};
ghost use Rattle.journal.specs.Trim.{refusal_number, refusal_never_0, answer_told, trim_answer, trimmed_words};

mod compact;
pub mod words;

use bus::refusals::Numbered;
use chip::{Chip, Edition, Levels};

// How many words a journal may have.
const MOST_WORDS: usize = 8192;

/// Why a trim is refused.
#[derive(Clone, Copy, Debug, PartialEq, Eq)]
pub enum TrimRefusal {
    /// A word is no frame.
    NoFrame = 1,
    /// There are too many words.
    TooLong = 6,
    /// There is no such edition.
    NoEdition = 8,
}

impl Numbered for TrimRefusal {
    ghost number_of = { refusal_number };

    ghost never_0 = { refusal_never_0 };

    fn number(&self) -> u8 {
        *self as u8
    }
}

/// Keeps the words whose events change the chip, from a power-up of that edition under those levels on, and gives their count. A refused
/// call changes no word.
#[tactic(auto, using(crate::proofs::Refused::by_edition))]
pub fn trim(words: &mut [u32], edition: Edition, levels: Levels) -> Result<usize, TrimRefusal>
    ensures value { answer_told result ≡ trim_answer words.old (edition_number edition) levels.a levels.b levels.c }
    ensures words_after { words.new ≡ trimmed_words words.old (edition_number edition) levels.a levels.b levels.c }
{
    if words.len() > MOST_WORDS {
        return Err(TrimRefusal::TooLong);
    }
    if !words::all_frames(words) {
        return Err(TrimRefusal::NoFrame);
    }
    Ok(compact::keep(words, Chip::new(edition, levels)))
}

// The same, by the number of the edition, if there is such a one.
#[tactic(auto, using(crate::proofs::Refused::by_number))]
fn trim_numbered(words: &mut [u32], edition: u8, levels: Levels) -> Result<usize, TrimRefusal>
    ensures value { answer_told result ≡ trim_answer words.old edition levels.a levels.b levels.c }
    ensures words_after { words.new ≡ trimmed_words words.old edition levels.a levels.b levels.c }
{
    let edition = Edition::numbered(edition).ok_or(TrimRefusal::NoEdition)?;
    trim(words, edition, levels)
}

/// The same in numbers, as C has it: the count above the number 0, or the number of the refusal.
// Not by one function with calls: there a u16 is given, and here a count whose bound the trim alone knows.
pub fn towanchor_trim(
    words: &mut [u32],
    edition: u8,
    levels_a: u8,
    levels_b: u8,
    levels_c: u8,
) -> u32
    ensures value { result ≡ trim_answer words.old edition levels_a levels_b levels_c }
    ensures words_after { words.new ≡ trimmed_words words.old edition levels_a levels_b levels_c }
{
    let levels = Levels {
        a: levels_a,
        b: levels_b,
        c: levels_c,
    };
    match trim_numbered(words, edition, levels) {
        Ok(kept) => 256 * kept as u32,
        Err(refusal) => u32::from(refusal.number()),
    }
}
