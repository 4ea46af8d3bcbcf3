//! The trim of a journal for C: that of the crate journal under the same name. include/towanchor.h declares it.
#![tactic(auto)]

ghost use Rattle.std.specs.Prelude.{◌≡◌};
ghost use Rattle.journal.specs.Trim.{trim_answer, trimmed_words};

/// Keeps the words whose events change the chip, from a power-up of that edition under those levels on, and gives their count above the
/// number. A refused call changes no word.
#[unsafe(no_mangle)]
pub extern "C" fn towanchor_trim(
    words: &mut [u32],
    edition: u8,
    levels_a: u8,
    levels_b: u8,
    levels_c: u8,
) -> u32
    ensures value { result ≡ trim_answer words.old edition levels_a levels_b levels_c }
    ensures words_after { words.new ≡ trimmed_words words.old edition levels_a levels_b levels_c }
{
    journal::towanchor_trim(words, edition, levels_a, levels_b, levels_c)
}
