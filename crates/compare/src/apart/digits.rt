// Single bits of a byte, where a place above 7 counts on from 0 again, and a choice between two bytes.

pub(super) fn bit(byte: u8, place: usize) -> bool {
    (byte >> ((place % 8) as u8)) % 2 == 1
}

// The byte with one bit set to `value`.
pub(super) fn with_bit(byte: u8, place: usize, value: bool) -> u8 {
    let worth = 1u8 << ((place % 8) as u8);
    if value { byte | worth } else { byte & !worth }
}

pub(super) fn pick(on: bool, yes: u8, no: u8) -> u8 {
    if on { yes } else { no }
}
