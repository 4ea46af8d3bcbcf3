//! The line writer: an answer line at the start of the part of the output that it is lent.
ghost use Rattle.std.specs.Prelude.{◌≡◌, ◌+◌, ◌*◌, ◌≤◌, ◌<◌, length};
ghost use Rattle.std.proofs.lemmas.List.Edits.{sets};
ghost use Rattle.text.specs.Digits.{in_digits};
ghost use Rattle.script.specs.Answers.{all_levels, line_after, given_by, front_digits, card_digits};
ghost use Rattle.script.specs.Run.{width_of};

use super::{Answer, CARD_DIGITS, FRONT_DIGITS, Scripted};
use text::{LF, digits};

// A byte as two digits at that place.
fn put(out: &mut [u8], at: usize, byte: u8)
    requires { at + 1 < length out.old }
    ensures { out.new ≡ sets out.old at (in_digits byte) }
{
    out[at..at + 2].copy_from_slice(&digits::of_byte(byte));
}

// The levels of every card, behind the number and the byte; and the place behind them.
fn put_levels<S: Scripted>(out: &mut [u8], subject: &S) -> usize
    requires { width_of S.answerer subject.now ≤ length out.old }
    ensures place { result ≡ front_digits + card_digits * S.answerer.cards subject.now }
    ensures output { out.new ≡ sets out.old front_digits (all_levels S.answerer subject.now) }
{
    let mut at = FRONT_DIGITS;
    // By places, since whoever answers names a card by its place; and by a cursor, since after a loop over the cards and over chunks of the
    // output the prover does not know what was written.
    for card in 0..subject.cards() {
        put(out, at, subject.levels(card, 0));
        put(out, at + 2, subject.levels(card, 1));
        put(out, at + 4, subject.levels(card, 2));
        at += CARD_DIGITS;
    }
    at
}

// An answer line.
pub(super) fn write<S: Scripted>(out: &mut [u8], answer: Answer, subject: &S)
    requires { width_of S.answerer subject.now ≤ length out.old }
    ensures { out.new ≡ sets out.old 0 (line_after S.answerer (given_by subject.now answer)) }
{
    put(out, 0, answer.number);
    put(out, 2, answer.byte);
    let end = put_levels(out, subject);
    out[end] = LF;
}
