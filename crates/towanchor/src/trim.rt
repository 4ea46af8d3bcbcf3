// The lines of a script that change the chip, found by the function by which a host trims its journal.
ghost use Rattle.std.specs.Prelude.{◌≡◌, ◌++◌, IfOk, OnOk, is_some};
ghost use Rattle.bus.specs.Kinds.{operands_of};
ghost use Rattle.text.specs.Digits.{in_digits};
ghost use Rattle.text.specs.Frames.{frame_in};
ghost use Rattle.text.specs.Answers.{line_of};
ghost use Rattle.text.specs.Written.{operands_out};
ghost use Rattle.prints.specs.Trimmed.{word_said, journal_of, word_line, word_lines, printed_trimmed, refuses_trimming};

use super::output::{self, Printed};
use super::refusals::Refused;
use super::strays;
use bus::kinds::Kind;
use chip::{Edition, Levels};
use journal::words::Logged;
use script::{LONGEST, RunRefusal};
use std::alloc::{AllocError, Global};
use text::line::Line;
use text::lines::Lines;
use text::{LF, digits};

// The word of what is no frame. No kind has its number, so that the trim itself refuses the text, and says by which number.
const NO_FRAME: u32 = u32::MAX;

fn word_of(line: Line<'_>) -> u32
    ensures { result ≡ word_said (frame_in (line_of line.entry)) }
{
    match line.event() {
        Some(event) => Logged::from(event).pack(),
        None => NO_FRAME,
    }
}

// A word for each line of a text.
fn words_of(alloc: Global, text: &[u8]) -> Result<Vec<u32>, AllocError>
    ensures { IfOk result (λ words. words.items ≡ journal_of text.now) }
{
    Lines::new(text).map(word_of).collect(alloc)
}

// Puts a byte in two digits behind what is there.
fn put_byte(out: &mut Vec<u8>, byte: u8) -> Result<(), AllocError>
    ensures { OnOk result (out.new.items ≡ out.old.items ++ in_digits byte) }
{
    out.extend_from_slice(&digits::of_byte(byte))
}

// How many operands a kind has. A kind that there is not has none.
#[tactic(auto, using(crate::proofs::Trimmed::operands_told, crate::proofs::Trimmed::no_operands))]
fn operands_of(kind: u16) -> u8
    ensures { result ≡ operands_of kind }
{
    match Kind::numbered(kind) {
        Some(kind) => kind.operands(),
        None => 0,
    }
}

// Puts the first so many of two operands.
#[tactic(auto, using(crate::proofs::Trimmed::both_out))]
fn put_operands(out: &mut Vec<u8>, count: u8, first: u8, second: u8) -> Result<(), AllocError>
    ensures { OnOk result (out.new.items ≡ out.old.items ++ operands_out count first second) }
{
    match count {
        0 => Ok(()),
        1 => put_byte(out, first),
        _ => {
            put_byte(out, first)?;
            put_byte(out, second)
        }
    }
}

// Puts a word as a line: its kind, which is a byte in every word that is a frame, and the operands that the kind has.
#[tactic(auto, using(crate::proofs::Trimmed::line_put))]
fn put_line(out: &mut Vec<u8>, word: u32) -> Result<(), AllocError>
    ensures { OnOk result (out.new.items ≡ out.old.items ++ word_line word) }
{
    let event = Logged::read(word);
    put_byte(out, (event.kind % 256) as u8)?;
    put_operands(out, operands_of(event.kind), event.first, event.second)?;
    out.push(LF)?;
    Ok(())
}

// Some words as lines.
#[tactic(auto, using(crate::proofs::OneMore::none, crate::proofs::OneMore::one_more))]
fn lines(alloc: Global, words: &[u32]) -> Result<Vec<u8>, AllocError>
    ensures { IfOk result (λ out. out.items ≡ word_lines words.now) }
{
    let mut out = Vec::new(alloc);
    for word in words {
        put_line(&mut out, *word)?;
    }
    Ok(out)
}

// What is printed of a text. Where a line is no frame the whole text is refused.
#[tactic(auto, using(crate::proofs::Trimmed::long_refused))]
fn trimmed(alloc: Global, text: &[u8]) -> Result<Printed, AllocError>
    ensures text { IfOk result (λ printed. printed.text.items ≡ printed_trimmed text.now) }
    ensures refused { IfOk result (λ printed. is_some printed.refused ≡ refuses_trimming text.now) }
{
    if LONGEST < text.len() {
        return output::refusal(alloc, RunRefusal::TooLong);
    }
    let mut log = words_of(alloc, text)?;
    match journal::trim(&mut log, Edition::Older, Levels::HIGH) {
        Ok(kept) => {
            // The words that were kept stand in front.
            log.truncate(kept);
            Ok(Printed {
                text: lines(alloc, &log)?,
                refused: None,
            })
        }
        Err(refusal) => output::refusal(alloc, refusal),
    }
}

// Prints that; and names on standard error the first of the lines that are no frames, where the text is refused for them.
pub(super) fn trim(rt: &(impl Print + Eprint + AllocGlobal), text: &[u8]) -> anyhow::Result<()> {
    let printed = trimmed(rt.alloc(), text)?;
    let ended = printed.write(rt);
    if matches!(printed.refused, Some(Refused::NoFrame)) {
        strays::name(rt, text)?;
    }
    ended
}
