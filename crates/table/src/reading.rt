//! An answer read from the published table.
ghost use Rattle.std.specs.Prelude.{◌≡◌};
ghost use Rattle.control.specs.Lookup.{lookup_of};

use crate::entries;

/// The table's entry for a word and a pin; 255 where it has none. The contract is that of the lookup: so the two agree, at every word and every pin.
// No `Option`, since the entries are numbers, and so is what is counted and printed of them.
#[tactic(auto, using(crate::proofs::Place::entry_of), unfolding(control::specs::Lookup::lookup_of))]
pub(super) fn answer(word: u8, pin: u8) -> u8
    ensures { result ≡ lookup_of word pin }
{
    if word < 128 || 7 < pin {
        return 255;
    }
    let roles = entries::published();
    let at = (word as usize - 128) * 8 + pin as usize;
    roles[at]
}
