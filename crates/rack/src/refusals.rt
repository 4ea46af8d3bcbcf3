//! Why bases make no rack, why a rack refuses an event, and why it shows nothing of a card; and the numbers that scripts and C have for it.
ghost use Rattle.std.specs.Prelude.{◌≡◌};
ghost use Rattle.rack.specs.Answers.{bad_rack_told, refusal_number, view_refusal_number};
ghost use Rattle.rack.specs.Never0.{bad_rack_never_0, refusal_never_0, view_refusal_never_0};
ghost use Rattle.rack.specs.declared.refusals.RackRefusal.TheVariants as refusals;

use bus::refusals::{Numbered, Refusal};

/// The bases make no rack.
#[derive(Clone, Copy, Debug, PartialEq, Eq)]
pub struct BadRack;

impl Numbered for BadRack {
    ghost number_of = { bad_rack_told };

    ghost never_0 = { bad_rack_never_0 };

    fn number(&self) -> u8 {
        9
    }
}

/// Why a rack refuses an event.
#[derive(Clone, Copy, Debug, PartialEq, Eq)]
pub enum RackRefusal {
    /// There is no card at this address or place.
    NoCard,
    /// The card refuses it, or the bus that it shares with the others.
    Card(Refusal),
}

impl Numbered for RackRefusal {
    ghost number_of = { refusal_number };

    ghost never_0 = { refusal_never_0 };

    fn number(&self) -> u8 {
        match self {
            RackRefusal::NoCard => 10,
            RackRefusal::Card(refusal) => refusal.number(),
        }
    }
}

impl From<Refusal> for RackRefusal {
    ghost from_gives = { λ refusal given. given ≡ refusals.Card refusal };

    fn from(refusal: Refusal) -> Self {
        RackRefusal::Card(refusal)
    }
}

/// Why a rack shows nothing of a card.
#[derive(Clone, Copy, Debug, PartialEq, Eq)]
pub enum ViewRefusal {
    /// There is no card at this place.
    NoCard = 10,
    /// There is a card, but no group of this number.
    NoSuchGroup = 2,
}

impl Numbered for ViewRefusal {
    ghost number_of = { view_refusal_number };

    ghost never_0 = { view_refusal_never_0 };

    fn number(&self) -> u8 {
        *self as u8
    }
}
