//! A rack of up to eight cards on one bus: how it is built, what each card shows, and what an event makes of it.
#![tactic(auto)]

ghost use Rattle.std.specs.Prelude.{◌≡◌, []};
ghost use Rattle.rack.specs.Bases.{is_base, are_bases};
ghost use Rattle.rack.specs.State.{rack_of, built_of};

mod device;
pub mod events;
pub mod refusals;
mod steps;
mod targets;
mod views;

use bus::Phase;
use chip::{Chip, Core, Edition};
use refusals::BadRack;

/// How many cards a rack has room for, each in a place of its own.
pub const MOST_CARDS: usize = 8;

const PLACES: u8 = 8;

// How many byte locations a card has, and how many registers.
const CARD_WIDTH: u16 = 8;

const REGISTERS: u16 = 4;

const LAST_BASE: u16 = 0x7f8;

// The edition of every card: where none is named it is the older, and the building of a rack names none.
const CARD_EDITION: Edition = Edition::Older;

/// A rack: what runs on its one bus, how many cards there are, their bases, and what is in each of the eight places. The bus numbers the
/// registers through: register r of the card at place p is 8 x r + p. So there is no rack on which two cycles run.
/// The places are arrays with a count beside them: each place has a core, with a card or without, since a reset is of all of them, and a rack is
/// copied as a chip is, which an `ArrayVec` is not.
#[derive(Clone, Copy, Debug, PartialEq, Eq)]
pub struct Rack {
    pub phase: Phase,
    pub count: u8,
    pub bases: [u16; MOST_CARDS],
    pub cores: [Core; MOST_CARDS],
}

#[tactic(auto, unfolding(crate::specs::Bases::is_base))]
fn is_base(base: u16) -> bool
    ensures { result ≡ is_base base }
{
    base % CARD_WIDTH == 0 && base <= LAST_BASE
}

// Whether each is a base, and none comes again behind itself. The recursion is eight deep at most: longer lists are refused before.
#[tactic(auto, unfolding(crate::specs::Bases::are_bases))]
fn are_bases(bases: &[u16]) -> bool
    ensures { result ≡ are_bases bases.now }
{
    match bases {
        [] => true,
        [base, later @ ..] => is_base(*base) && !later.contains(base) && are_bases(later),
    }
}

impl Rack {
    /// A rack of cards in the order of their bases, each at its power-up. It is refused where two bases are equal, where a number is no
    /// base, and where there are too many.
    #[tactic(auto, unfolding(crate::specs::State::built_of, crate::specs::Bases::makes_rack))]
    pub fn new(bases: &[u16]) -> Result<Self, BadRack>
        ensures { result ≡ built_of bases.now }
    {
        if bases.len() > MOST_CARDS || !are_bases(bases) {
            return Err(BadRack);
        }
        let mut places = [0; MOST_CARDS];
        places[..bases.len()].copy_from_slice(bases);
        Ok(Rack {
            count: bases.len() as u8,
            bases: places,
            ..Rack::default()
        })
    }
}

impl Default for Rack {
    /// A rack of no cards.
    #[tactic(auto, unfolding(crate::specs::State::rack_of))]
    fn default() -> Self
        ensures { result ≡ rack_of [] }
    {
        Rack {
            phase: Phase::Idle,
            count: 0,
            bases: [0; MOST_CARDS],
            cores: [Chip::default().core; MOST_CARDS],
        }
    }
}
