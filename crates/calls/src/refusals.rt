//! Why a call gives nothing, and its answer as the one number that C takes.
ghost use Rattle.std.specs.Prelude.{◌≡◌};
ghost use Rattle.calls.specs.Answers.{call_number, call_never_0, answered};
ghost use Rattle.calls.specs.declared.refusals.CallRefusal.TheVariants as refusals;

use bus::refusals::{Numbered, Refusal};

// Why a call gives nothing. One list, as the header has it, and not the refusal of a frame with more beside it.
#[derive(Clone, Copy, Debug, PartialEq, Eq)]
pub(super) enum CallRefusal {
    // The bytes are those of no state, or too few or too many.
    NoState,
    // There is no such edition.
    NoEdition,
    // There is no such kind of event.
    NoSuchKind,
    // The chip refuses the event.
    Event(Refusal),
    // There is no such port, channel, tally or group.
    OutOfRange,
}

impl Numbered for CallRefusal {
    ghost number_of = { call_number };

    ghost never_0 = { call_never_0 };

    fn number(&self) -> u8 {
        match self {
            CallRefusal::NoState | CallRefusal::NoEdition => 8,
            CallRefusal::NoSuchKind => 1,
            CallRefusal::Event(refusal) => refusal.number(),
            CallRefusal::OutOfRange => 2,
        }
    }
}

impl From<Refusal> for CallRefusal {
    ghost from_gives = { λ refusal given. given ≡ refusals.Event refusal };

    fn from(refusal: Refusal) -> Self {
        CallRefusal::Event(refusal)
    }
}

// C takes one number: its lowest byte is the refusal's number, or 0, and what is given stands above that.
pub(super) fn answer(given: Result<u16, CallRefusal>) -> u32
    ensures { result ≡ answered given }
{
    match given {
        Ok(given) => 256 * (given as u32),
        Err(refusal) => refusal.number() as u32,
    }
}
