//! The run of a script: a text of frames, one to a line, answered line by line by a device at its power-up, or by whoever answers scripts from
//! the state that it is in. A rack's script, whose first line names the rack, is run by `racks`.
#![tactic(auto)]

ghost use Rattle.std.specs.Prelude.{◌≡◌, ◌≤◌, length};
ghost use Rattle.bus.specs.Answers.{number_told, byte_told};
ghost use Rattle.text.specs.Answers.{line_of};
ghost use Rattle.script.specs.Answers.{Answerer, line_width, answer_width, left_after, given_by};
ghost use Rattle.script.specs.Run.{run_refusal_number, run_refusal_never_0, run_told, room_for, ran_of, width_of, filled, output_left, subject_left};
ghost use Rattle.script.specs.AtPowerUp.{output_by_chip, output_by_8355};

use bus::refusals::{self, Numbered};
use chip::{Chip, Edition, Levels};
use i8355::Chip8355;
use text::line::Line;
use text::lines::{self, Lines};

mod devices;
pub mod left;
pub mod racks;
mod writer;

/// How many bytes a script may have.
// Whoever takes a text asks this first: one function for it would have to name each refusal.
pub const LONGEST: usize = 4096;

// How many digits the number and the byte have, and the levels of a card.
const FRONT_DIGITS: usize = 4;

const CARD_DIGITS: usize = 6;

/// How many bytes the answer of a device to a line has.
pub const ANSWER_WIDTH: usize = 11;

/// How many bytes an answer line has where there are so many cards: LF is one more than the digits.
pub fn line_width(cards: u8) -> usize
    ensures { result ≡ line_width cards }
{
    FRONT_DIGITS + CARD_DIGITS * usize::from(cards) + 1
}

/// What an answer line says of an event: its number, 00 if it was accepted; and its byte, 00 unless it is a read that was accepted.
#[derive(Clone, Copy, Debug, PartialEq, Eq)]
pub struct Answer {
    pub number: u8,
    pub byte: u8,
}

impl Answer {
    // To a line that is no frame.
    const NO_FRAME: Answer = Answer { number: 1, byte: 0 };

    fn of<R: Numbered>(given: Result<u8, R>) -> Answer
        ensures number { result.number ≡ number_told R.number_of given }
        ensures byte { result.byte ≡ byte_told given }
    {
        Answer {
            number: refusals::number(&given),
            byte: given.unwrap_or(0),
        }
    }
}

/// Whoever answers scripts: some cards, each with ports A, B and C, whose levels stand in every answer line.
pub trait Scripted {
    /// What a line makes of it, and what an answer line shows of it.
    ghost answerer: { Answerer Self };

    /// Takes a line, well formed or not.
    fn take(&mut self, line: Line<'_>) -> Answer
        ensures { given_by self.new result ≡ answerer.takes self.old (line_of line.entry) };

    /// How many cards there are.
    fn cards(&self) -> u8
        ensures { result ≡ answerer.cards self.now };

    /// The levels of a port of a card.
    fn levels(&self, card: u8, port: u8) -> u8
        ensures { result ≡ answerer.levels self.now card port };
}

/// Why a run is refused.
#[derive(Clone, Copy, Debug, PartialEq, Eq)]
pub enum RunRefusal {
    /// The text is longer than a script may be.
    TooLong = 6,
    /// The output has no room for the answers.
    NoRoom = 7,
}

impl Numbered for RunRefusal {
    ghost number_of = { run_refusal_number };

    ghost never_0 = { run_refusal_never_0 };

    fn number(&self) -> u8 {
        *self as u8
    }
}

// Answers every line of a text, each from where the last answer stopped. By a cursor: after a loop over the lines and over chunks
// of the output the prover does not know what was written.
fn answer_all<S: Scripted>(subject: &mut S, text: &[u8], out: &mut [u8])
    requires { room_for (width_of S.answerer subject.old) text.now ≤ length out.old }
    ensures output { out.new ≡ filled S.answerer subject.old text.now out.old }
    ensures subject { subject.new ≡ left_after S.answerer subject.old text.now }
{
    let width = line_width(subject.cards());
    let mut at = 0;
    for line in Lines::new(text) {
        let answer = subject.take(line);
        writer::write(&mut out[at..], answer, subject);
        at += width;
    }
}

/// Has the subject answer every line of a text, from the state that it is in, and says how many lines that are. A refused run leaves the
/// subject and the output as they were.
#[tactic(auto, unfolding(crate::specs::Run::run_number))]
pub fn run_from<S: Scripted>(
    subject: &mut S,
    text: &[u8],
    out: &mut [u8],
) -> Result<usize, RunRefusal>
    ensures told { run_told result ≡ ran_of (width_of S.answerer subject.old) text.now (length out.old) }
    ensures output { out.new ≡ output_left S.answerer subject.old text.now out.old }
    ensures subject { subject.new ≡ subject_left S.answerer subject.old text.now (length out.old) }
{
    if LONGEST < text.len() {
        return Err(RunRefusal::TooLong);
    }
    let lines = lines::count(text);
    if out.len() < line_width(subject.cards()) * lines {
        return Err(RunRefusal::NoRoom);
    }
    answer_all(subject, text, out);
    Ok(lines)
}

/// Has a chip answer every line of a text from its power-up, with every line high, and says how many lines that are. A refused run leaves the
/// output as it was.
pub fn run(edition: Edition, text: &[u8], out: &mut [u8]) -> Result<usize, RunRefusal>
    ensures told { run_told result ≡ ran_of answer_width text.now (length out.old) }
    ensures output { out.new ≡ output_by_chip edition text.now out.old }
{
    run_from(&mut Chip::new(edition, Levels::HIGH), text, out)
}

/// The same of an 8355, whose lines are high at its power-up.
pub fn run_8355(text: &[u8], out: &mut [u8]) -> Result<usize, RunRefusal>
    ensures told { run_told result ≡ ran_of answer_width text.now (length out.old) }
    ensures output { out.new ≡ output_by_8355 text.now out.old }
{
    run_from(&mut Chip8355::new(), text, out)
}
