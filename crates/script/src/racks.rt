//! The run of a rack's script: a text whose first line has the bases of the cards, and each further line a frame, which the rack answers.
ghost use Rattle.std.specs.Prelude.{◌≡◌, length};
ghost use Rattle.script.specs.RackRun.{run_refusal_number, run_refusal_never_0, run_told, ran_of, output_left};
ghost use Rattle.script.specs.declared.racks.RackRunRefusal.TheVariants as refusals;

mod answers;
mod first;
mod frames;

use super::{LONGEST, RunRefusal, Scripted};
use answers::Answering;
use bus::refusals::Numbered;
use rack::refusals::BadRack;
use text::lines::Lines;

/// The room that is enough for the answers to any script: 4,096 lines, each as wide as with eight cards, 53 bytes.
pub const MOST_ROOM: usize = LONGEST * 53;

/// What an accepted run has written: the answers to so many lines, in so many bytes.
#[derive(Clone, Copy, Debug, PartialEq, Eq)]
pub struct Ran {
    pub lines: usize,
    pub length: usize,
}

/// Why a run is refused.
#[derive(Clone, Copy, Debug, PartialEq, Eq)]
pub enum RackRunRefusal {
    /// The first line is no rack.
    BadRack(BadRack),
    /// The text is too long, or the output has no room for the answers.
    Run(RunRefusal),
}

impl Numbered for RackRunRefusal {
    ghost number_of = { run_refusal_number };

    ghost never_0 = { run_refusal_never_0 };

    fn number(&self) -> u8 {
        match self {
            RackRunRefusal::BadRack(refusal) => refusal.number(),
            RackRunRefusal::Run(refusal) => refusal.number(),
        }
    }
}

impl From<BadRack> for RackRunRefusal {
    ghost from_gives = { λ refusal given. given ≡ refusals.BadRack refusal };

    fn from(refusal: BadRack) -> Self {
        RackRunRefusal::BadRack(refusal)
    }
}

impl From<RunRefusal> for RackRunRefusal {
    ghost from_gives = { λ refusal given. given ≡ refusals.Run refusal };

    fn from(refusal: RunRefusal) -> Self {
        RackRunRefusal::Run(refusal)
    }
}

/// Runs a text on the rack that its first line names, and leaves the output where the run is refused.
#[tactic(auto, unfolding(crate::specs::RackRun::run_number, crate::specs::RackBases::rack_for))]
pub fn run(text: &[u8], out: &mut [u8]) -> Result<Ran, RackRunRefusal>
    ensures told { run_told result ≡ ran_of text.now (length out.old) }
    ensures output { out.new ≡ output_left text.now out.old }
{
    if LONGEST < text.len() {
        return Err(RunRefusal::TooLong.into());
    }
    let mut lines = Lines::new(text);
    let first = lines.next().ok_or(BadRack)?;
    let mut subject = Answering(first::rack(first)?);
    let width = super::line_width(subject.cards());
    let lines = super::run_from(&mut subject, lines.text, out)?;
    Ok(Ran {
        lines,
        length: width * lines,
    })
}
