//! The pins of port C by role, as masks: what a mode word gives to handshakes, and what it leaves as outputs.
ghost use Rattle.std.specs.Prelude.{◌≡◌};
ghost use Rattle.control.specs.Pins.{handshake_pins, output_pins};

// The pins of group A's handshake, a byte for each value of bits 6 to 4, the lowest first: none twice in mode 0, then pins 7, 6
// and 3 of a mode 1 output, pins 5, 4 and 3 of a mode 1 input, and four times pins 7 to 3 in mode 2. A number and no array, which the
// compiler would build on the stack at each call.
const GROUP_A: u64 = 0xf8f8_f8f8_38c8_0000;

/// The pins that take part in a handshake, as ones: group A's, and pins 2 to 0 where group B is in mode 1. Data sheet: Mode Definition Summary.
#[tactic(auto, using(crate::proofs::UnderMasks::handshakes_by_mask))]
pub fn handshake(word: u8) -> u8
    ensures { result ≡ handshake_pins word }
{
    let at = ((word >> 1) & 0x38) as u64;
    let other = bits::choose(bits::bit(word, 2), 0x07, 0);
    // The remainder first, since a cast that would lose bits is refused.
    ((GROUP_A >> at) % 256) as u8 | other
}

/// The pins that are outputs: those of an output half that no handshake uses.
#[inline(always)]
#[tactic(auto, using(crate::proofs::UnderMasks::outputs_by_mask))]
pub fn outputs(word: u8) -> u8
    ensures { result ≡ output_pins word }
{
    let upper = bits::choose(bits::bit(word, 3), 0xf0, 0);
    let lower = bits::choose(bits::bit(word, 0), 0x0f, 0);
    !(handshake(word) | upper | lower)
}
