//! Bits of a byte, by shifts and masks: one taken, one put, eight assembled, and two bytes blended under a mask.
#![tactic(auto)]

ghost use Rattle.std.specs.Prelude.{◌≡◌, cond};
ghost use Rattle.bits.specs.Bit.{bit_of, with_bit, byte_of, blend_of};

/// Whether bit n of x is set. A byte has no bit above 7, so none is set there.
#[tactic(auto, using(crate::proofs::BitLaws::bit_above, crate::proofs::BitLaws::masked))]
pub fn bit(x: u8, n: u8) -> bool
    ensures { result ≡ bit_of x n }
{
    if 7 < n {
        return false;
    }
    (x >> n) & 1 == 1
}

/// x with bit n put to on; x itself where n is above 7.
#[tactic(auto, using(crate::proofs::BitLaws::with_above, crate::proofs::MaskLaws::blend_puts))]
pub fn with_bit(x: u8, n: u8, on: bool) -> u8
    ensures { result ≡ with_bit x n on }
{
    if 7 < n {
        return x;
    }
    blend(1 << n, choose(on, 0xff, 0), x)
}

/// The byte of which these are the bits 7 to 0.
#[tactic(auto, using(crate::proofs::MaskLaws::joined))]
pub fn byte(h: bool, g: bool, f: bool, e: bool, d: bool, c: bool, b: bool, a: bool) -> u8
    ensures { result ≡ byte_of h g f e d c b a }
{
    (h as u8) << 7
        | (g as u8) << 6
        | (f as u8) << 5
        | (e as u8) << 4
        | (d as u8) << 3
        | (c as u8) << 2
        | (b as u8) << 1
        | (a as u8)
}

/// The bits of x where the mask has a one, and those of y elsewhere.
#[tactic(auto, using(crate::proofs::MaskLaws::masks_blend))]
pub fn blend(mask: u8, x: u8, y: u8) -> u8
    ensures { result ≡ blend_of mask x y }
{
    (x & mask) | (y & !mask)
}

/// One of two bytes. Callers have no branch of their own, so that their proofs have one path.
pub fn choose(on: bool, yes: u8, no: u8) -> u8
    ensures { result ≡ cond on yes no }
{
    if on { yes } else { no }
}
