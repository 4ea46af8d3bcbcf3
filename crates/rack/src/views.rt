//! What a card shows, counts and explains, by its place; or why there is nothing of it.
ghost use Rattle.std.specs.Prelude.{◌≡◌, ◌<◌};
ghost use Rattle.rack.specs.Bases.{most_cards};
ghost use Rattle.rack.specs.State.{seen_at, chip_at};
ghost use Rattle.rack.specs.Views.{card_of, card_pins, card_tally, card_explained, card_explained_numbered};

use super::device::{place_of, register_of};
use super::refusals::ViewRefusal;
use super::{CARD_EDITION, Rack};
use bus::devices::Device;
use bus::{Phase, Pins};
use chip::Chip;
use chip::channel::{Side, Tally};
use chip::reasons::Explained;
use control::Group;

impl Rack {
    // What a card sees of the bus: the cycle that runs on itself, or nothing.
    fn seen(&self, place: u8) -> Phase
        ensures { result ≡ seen_at place self.now.phase }
    {
        match self.phase {
            Phase::Reading(number) if place_of(number) == place => {
                Phase::Reading(register_of(number))
            }
            Phase::Writing(number, byte) if place_of(number) == place => {
                Phase::Writing(register_of(number), byte)
            }
            _ => Phase::Idle,
        }
    }

    // What is at one of the eight places, as a chip alone would be. The place is a number, as callers have it: a type for it would be made of
    // one at each call, and be an index again here.
    #[tactic(auto, unfolding(crate::specs::State::chip_at))]
    pub(super) fn chip_at(&self, place: u8) -> Chip
        requires { place < most_cards }
        ensures { result ≡ chip_at self.now place }
    {
        Chip {
            phase: self.seen(place),
            edition: CARD_EDITION,
            core: self.cores[place as usize],
        }
    }

    /// The card at a place, as a chip alone would be; `NoCard` if there is none.
    #[tactic(auto, unfolding(crate::specs::Views::card_of, crate::specs::Targets::is_place))]
    pub fn card(&self, place: u8) -> Result<Chip, ViewRefusal>
        ensures { result ≡ card_of self.now place }
    {
        if !self.has_card(place as u16) {
            return Err(ViewRefusal::NoCard);
        }
        Ok(self.chip_at(place))
    }

    /// The pins of a port of the card at a place; `NoCard` if there is none.
    #[tactic(auto, unfolding(crate::specs::Views::card_pins, crate::specs::Views::card_of))]
    pub fn pins(&self, place: u8, port: u8) -> Result<Pins, ViewRefusal>
        ensures { result ≡ card_pins self.now place port }
    {
        Ok(self.card(place)?.pins(port))
    }

    /// What became of the bytes offered to a channel of the card at a place, or planted in it; `NoCard` if there is none.
    #[tactic(auto, unfolding(crate::specs::Views::card_tally, crate::specs::Views::card_of))]
    pub fn tally(&self, place: u8, group: Group, side: Side) -> Result<Tally, ViewRefusal>
        ensures { result ≡ card_tally self.now place group side }
    {
        Ok(self.card(place)?.tally(group, side))
    }

    /// Explains the INTR of a group of the card at a place; `NoCard` if there is none.
    #[tactic(auto, unfolding(crate::specs::Views::card_explained, crate::specs::Views::card_of))]
    pub fn explain(&self, place: u8, group: Group) -> Result<Explained, ViewRefusal>
        ensures { result ≡ card_explained self.now place group }
    {
        Ok(self.card(place)?.explain(group))
    }

    /// Explains the INTR of the group of that number, as scripts and C have it, of the card at a place: 0 is A and 1 is B. Without a
    /// card it is `NoCard`, whatever the number, and else `NoSuchGroup` of any other number.
    #[tactic(auto, unfolding(crate::specs::Views::card_explained_numbered, crate::specs::Views::card_of))]
    pub fn explain_numbered(&self, place: u8, number: u8) -> Result<Explained, ViewRefusal>
        ensures { result ≡ card_explained_numbered self.now place number }
    {
        let card = self.card(place)?;
        card.explain_numbered(number)
            .ok_or(ViewRefusal::NoSuchGroup)
    }
}
