// What a mode word makes of the ports: the directions, the strobed channels and the roles of the pins of port C. Bit 7 is
// never looked at, so a stored word without it acts as one with it.

use super::{channels, digits};

// The roles of a pin, each with its group where that tells more; the numbers are this model's own.
pub(super) const INPUT: u8 = 0;

pub(super) const OUTPUT: u8 = 1;

pub(super) const INTR_A: u8 = 2;

pub(super) const IBF_A: u8 = 3;

pub(super) const OBF_A: u8 = 4;

pub(super) const INTR_B: u8 = 5;

pub(super) const IBF_B: u8 = 6;

pub(super) const OBF_B: u8 = 7;

// STB of an input, or ACK of an output.
pub(super) const STROBE: u8 = 8;

// Whether the word gives the channel a handshake. Mode 2 strobes group A both ways.
pub(super) fn strobed(word: u8, channel: usize) -> bool {
    let mode_2 = digits::bit(word, 6);
    match channel {
        channels::A_IN => mode_2 || word / 16 % 4 == 3,
        channels::A_OUT => mode_2 || word / 16 % 4 == 2,
        channels::B_IN => word / 2 % 4 == 3,
        channels::B_OUT => word / 2 % 4 == 2,
        _ => false,
    }
}

// Whether port 0 or 1 can put a byte out at all. Port A in mode 2 can, whatever its direction says.
pub(super) fn puts_out(word: u8, port: usize) -> bool {
    if port == 0 {
        digits::bit(word, 6) || !digits::bit(word, 4)
    } else {
        !digits::bit(word, 1)
    }
}

// The roles of the pins of port C, pin 0 first: a pin is free unless a strobed channel has a use for it.
pub(super) fn roles_of(word: u8) -> [u8; 8] {
    let low = digits::pick(digits::bit(word, 0), INPUT, OUTPUT);
    let high = digits::pick(digits::bit(word, 3), INPUT, OUTPUT);
    let a_in = strobed(word, channels::A_IN);
    let a_out = strobed(word, channels::A_OUT);
    let b = digits::bit(word, 2);
    [
        digits::pick(b, INTR_B, low),
        digits::pick(b, digits::pick(digits::bit(word, 1), IBF_B, OBF_B), low),
        digits::pick(b, STROBE, low),
        digits::pick(a_in || a_out, INTR_A, low),
        digits::pick(a_in, STROBE, high),
        digits::pick(a_in, IBF_A, high),
        digits::pick(a_out, STROBE, high),
        digits::pick(a_out, OBF_A, high),
    ]
}

pub(super) fn role_of(word: u8, pin: usize) -> u8 {
    roles_of(word)[pin % 8]
}
