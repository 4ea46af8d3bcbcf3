//! The card that an event is for: by its address, or by its place.
ghost use Rattle.std.specs.Prelude.{◌≡◌, ◌<◌, IfSome};
ghost use Rattle.rack.specs.Bases.{most_cards};
ghost use Rattle.rack.specs.Targets.{answers_at, target_from, bases_in, is_place, target_at};

use super::{CARD_WIDTH, PLACES, REGISTERS, Rack};

#[tactic(auto, unfolding(crate::specs::Targets::answers_at))]
fn answers(base: u16, address: u16) -> bool
    ensures { result ≡ answers_at base address }
{
    base <= address && address - base < CARD_WIDTH
}

impl Rack {
    // The place of the first card that answers at the address, and its register there: the four registers are seen twice.
    pub(super) fn at_address(&self, address: u16) -> Option<(u8, u8)>
        ensures first { result ≡ target_from 0 (bases_in self.now.count self.now.bases) address }
        ensures inside { IfSome result (λ target. (target.0 < most_cards) × (target.1 < 4)) }
    {
        let bases = &self.bases[..self.count.min(PLACES) as usize];
        let place = bases.iter().position(|&base| answers(base, address))?;
        Some((place as u8, ((address - bases[place]) % REGISTERS) as u8))
    }

    // Whether there is a card at the place.
    #[tactic(auto, unfolding(crate::specs::Targets::is_place))]
    pub(super) fn has_card(&self, place: u16) -> bool
        ensures { result ≡ is_place self.now.count place }
    {
        place < self.count as u16 && place < PLACES as u16
    }

    // The card at the place, and its port.
    #[tactic(auto, unfolding(crate::specs::Targets::target_at, crate::specs::Targets::is_place))]
    pub(super) fn at_place(&self, place: u16, port: u8) -> Option<(u8, u8)>
        ensures there { result ≡ target_at self.now.count place port }
        ensures inside { IfSome result (λ target. target.0 < most_cards) }
    {
        if !self.has_card(place) {
            return None;
        }
        Some((place as u8, port))
    }
}
