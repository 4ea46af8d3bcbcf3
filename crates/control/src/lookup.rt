//! The lookup of a pin's role under a mode word: what the published table says, worked out and not read.
ghost use Rattle.std.specs.Prelude.{◌≡◌, ◌<◌};
ghost use Rattle.control.specs.Mode.{strobed_input};
ghost use Rattle.control.specs.declared.Group.TheVariants.{B};
ghost use Rattle.control.specs.Pins.{handshake_role};
ghost use Rattle.control.specs.Lookup.{role_told, number_told, lookup_of};

use crate::{Group, Role, mode, roles};

// What stands for no role where a role is told by its number, as the published table tells it.
const NONE: u8 = 255;

// The one role that a handshake can give to the pin, which is one of eight: group B's has pins 0 to 2, and group A's the others.
#[tactic(auto, unfolding(crate::specs::Pins::handshake_role))]
fn handshake_role(word: u8, pin: u8) -> Role
    requires { pin < 8 }
    ensures { role_told result ≡ handshake_role (strobed_input word B) pin }
{
    let b_is_input = mode::strobed_input(word, Group::B);
    match pin {
        0 | 3 => Role::Intr,
        1 if b_is_input => Role::Ibf,
        1 => Role::Obf,
        2 if b_is_input => Role::Stb,
        2 => Role::Ack,
        4 => Role::Stb,
        5 => Role::Ibf,
        6 => Role::Ack,
        _ => Role::Obf,
    }
}

impl Role {
    /// The role of a pin of port C under a mode word; `None` for a word below 128 or a pin above 7. Data sheet: Mode Definition Summary.
    #[tactic(auto, using(crate::proofs::PinByMasks::lookup_by_masks))]
    pub fn of(word: u8, pin: u8) -> Option<Role>
        ensures { number_told result ≡ lookup_of word pin }
    {
        if word < 128 || 7 < pin {
            return None;
        }
        if bits::bit(roles::handshake(word), pin) {
            return Some(handshake_role(word, pin));
        }
        if bits::bit(roles::outputs(word), pin) {
            return Some(Role::Output);
        }
        Some(Role::Input)
    }
}

/// The number of the role of a pin of port C under a mode word; 255 where there is none.
pub fn role(word: u8, pin: u8) -> u8
    ensures { result ≡ lookup_of word pin }
{
    Role::of(word, pin).map_or(NONE, |role| role as u8)
}
