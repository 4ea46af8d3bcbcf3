//! The places of an older image: where each of its parts begins, and how long it is. specs/OlderPlaces.antt has the same list for the definitions.

/// Where the tallies begin: of each channel, A in, A out, B in and B out, five of two bytes.
pub const TALLIES: usize = 0;

/// How many bytes the tallies of a channel have.
pub const CHANNEL_TALLIES: usize = 10;

/// What an image has between its tallies and its bus an older one has too, in the same order: from here on.
pub const LEVELS_A: usize = 40;

/// The byte of the bus where nothing runs.
pub const IDLE: u8 = 0;

/// The byte of the bus where a read runs.
pub const READS: u8 = 1;

/// The byte of the bus where a write runs.
pub const WRITES: u8 = 2;

/// What runs on the bus.
pub const BUS: usize = 54;

/// The port or address that the running cycle names.
pub const ADDRESS: usize = 55;

/// The byte that the running write writes.
pub const WRITTEN: usize = 56;

/// Where what is not used begins, up to the end.
pub const UNUSED: usize = 57;

/// How many bytes an older image has.
pub const LENGTH: usize = 64;
