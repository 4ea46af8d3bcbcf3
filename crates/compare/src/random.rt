// A pseudo-random sequence that is the same in every run: xorshift on 64 bits. A seed is any number but zero, and the next
// number of the sequence is the next seed.

pub(super) fn next(seed: u64) -> u64 {
    let one = seed ^ (seed << 13);
    let two = one ^ (one >> 7);
    two ^ (two << 17)
}

// A seed at another place of the sequence: what follows it has nothing to do with what follows the first.
pub(super) fn far(seed: u64) -> u64 {
    seed.wrapping_add(0x9e3779b97f4a7c15)
}

// A cast that would lose bits is refused: so both functions below take the remainder first.

// One of the eight bytes of a number, by which it decides several things at once: the lowest of what is handed over.
pub(super) fn byte(number: u64) -> u8 {
    (number % 256) as u8
}

// The lowest two bytes of a number.
pub(super) fn word(number: u64) -> u16 {
    (number % 65536) as u16
}
