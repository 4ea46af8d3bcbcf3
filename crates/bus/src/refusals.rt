//! Why an event is refused, and the numbers that scripts and C have for it.
ghost use Rattle.std.specs.Prelude.{◌≡◌, ℕ};
ghost use Rattle.bus.specs.Refusals.{is_busy, number_of};
ghost use Rattle.bus.specs.Answers.{raw, refusal_number, frame_number, number_told};
ghost use Rattle.bus.specs.Never0.{Never0, refusal_never_0, frame_never_0};
ghost use Rattle.bus.specs.declared.refusals.FrameRefusal.TheVariants as frames;

use crate::events::Event;
use crate::{Limits, Phase};

/// A refusal with a number, by which scripts and C know it.
pub trait Numbered: Copy {
    /// The number of each refusal.
    ghost number_of: { Self → ℕ };

    /// None of them is 0, which says that an event was accepted.
    ghost never_0: { Never0 number_of };

    /// The number of the refusal.
    fn number(&self) -> u8
        ensures { result ≡ number_of self.now };
}

/// The number of an answer: that of its refusal, and 0 where there is none.
pub fn number<T, R: Numbered>(answer: &Result<T, R>) -> u8
    ensures { result ≡ number_told R.number_of answer.now }
{
    match answer {
        Ok(_) => 0,
        Err(refusal) => refusal.number(),
    }
}

/// Why a device refuses an event.
#[derive(Clone, Copy, Debug, PartialEq, Eq)]
pub enum Refusal {
    /// There is no such address or port.
    OutOfRange = 2,
    /// The address cannot be read.
    NotReadable = 3,
    /// A cycle begins while another runs.
    CycleRuns = 4,
    /// A cycle ends while none runs.
    NoCycleRuns = 5,
}

impl Numbered for Refusal {
    ghost number_of = { refusal_number };

    ghost never_0 = { refusal_never_0 };

    fn number(&self) -> u8 {
        *self as u8
    }
}

/// Why a frame, which names the kind of an event by number, is refused.
#[derive(Clone, Copy, Debug, PartialEq, Eq)]
pub enum FrameRefusal<R> {
    /// There is no such kind.
    NoSuchKind,
    /// Whoever the event is for refuses it.
    Event(R),
}

impl<R: Numbered> Numbered for FrameRefusal<R> {
    ghost number_of = { frame_number R.number_of };

    ghost never_0 = { frame_never_0 R.number_of R.never_0 };

    fn number(&self) -> u8 {
        match self {
            FrameRefusal::NoSuchKind => 1,
            FrameRefusal::Event(refusal) => refusal.number(),
        }
    }
}

impl<R> From<R> for FrameRefusal<R> {
    ghost from_gives = { λ refusal given. given ≡ frames.Event refusal };

    fn from(refusal: R) -> Self {
        FrameRefusal::Event(refusal)
    }
}

fn is_busy(phase: Phase) -> bool
    ensures { result ≡ is_busy phase }
{
    !matches!(phase, Phase::Idle)
}

/// Whether an event is accepted under these limits while this runs on the bus, and why not.
#[tactic(auto, unfolding(crate::specs::Refusals::number_of, crate::specs::Kinds::is_kind))]
pub fn judge(limits: Limits, phase: Phase, event: Event) -> Result<(), Refusal>
    ensures { number_told refusal_number result ≡ number_of limits phase (raw event).kind (raw event).first }
{
    match event {
        Event::Reset => Ok(()),
        Event::BeginRead(address) => {
            if address >= limits.addresses {
                Err(Refusal::OutOfRange)
            } else if address >= limits.readable {
                Err(Refusal::NotReadable)
            } else if is_busy(phase) {
                Err(Refusal::CycleRuns)
            } else {
                Ok(())
            }
        }
        Event::EndCycle => {
            if is_busy(phase) {
                Ok(())
            } else {
                Err(Refusal::NoCycleRuns)
            }
        }
        Event::BeginWrite(address, _) => {
            if address >= limits.addresses {
                Err(Refusal::OutOfRange)
            } else if is_busy(phase) {
                Err(Refusal::CycleRuns)
            } else {
                Ok(())
            }
        }
        Event::OutsideLevels(port, _) => {
            if port >= limits.ports {
                Err(Refusal::OutOfRange)
            } else {
                Ok(())
            }
        }
    }
}
