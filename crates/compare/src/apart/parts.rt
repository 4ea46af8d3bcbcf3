// The number of a part: 0 is an 8255A, whose control word cannot be read, and any other an 82C55A, whose can.

pub(super) const I8255A: u8 = 0;
