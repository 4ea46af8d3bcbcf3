//! The places of an image: where each of its parts begins, and how long it is. specs/Places.antt has the same list for the definitions.

/// Where the tallies begin: of each channel, A in, A out, B in and B out, seven of two bytes.
pub const TALLIES: usize = 0;

/// How many bytes the tallies of a channel have.
pub const CHANNEL_TALLIES: usize = 14;

/// The levels outside of port A.
pub const LEVELS_A: usize = 56;

/// The levels outside of port B.
pub const LEVELS_B: usize = 57;

/// The levels outside of port C.
pub const LEVELS_C: usize = 58;

/// The latch of port C.
pub const LATCH_C: usize = 59;

/// Where the latches of the four channels begin, a byte each.
pub const LATCHES: usize = 60;

/// Where the conditions of the four channels begin, a byte each.
pub const CONDITIONS: usize = 64;

/// The mode word.
pub const WORD: usize = 68;

/// The enables, each on the pin on which a read of port C tells it.
pub const ENABLES: usize = 69;

/// What runs on the bus, with the address that it names.
pub const BUS: usize = 70;

/// The byte that is being written.
pub const WRITTEN: usize = 71;

/// The edition.
pub const EDITION: usize = 72;

/// Where what is not used begins, up to the end. All of it is 0.
pub const UNUSED: usize = 73;

/// How many bytes an image has.
pub const LENGTH: usize = 96;

/// Below this the byte of the bus is the address that is read; from here on it is this and the address that is written.
pub const WRITES: u8 = 4;

/// The byte of the bus where nothing runs.
pub const IDLE: u8 = 8;

/// The byte of the bus where a cycle runs at an address that does not exist. Such bytes are no image.
pub const NOWHERE: u8 = 255;

/// The byte of the edition of an 8255A. Images that were made for it alone have this there.
pub const OLDER: u8 = 0;

/// The byte of the edition of an 82C55A.
pub const NEWER: u8 = 1;
