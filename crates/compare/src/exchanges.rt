// Exchanges: six events each in their proper order, so that bytes meet every fate, flags are forced in every condition, and control is read
// where it matters.

use Planned::{BeginRead, BeginWrite, EndCycle, OutsideLevels};
use chip::{CONTROL, PORT_A, PORT_B, PORT_C};

// An event of an exchange: an address or a port, and of the byte of a write, or of levels, the bits that are drawn and then those that are set. No
// names for these, so that each event stands in one line.
#[derive(Clone, Copy)]
pub(super) enum Planned {
    Reset,
    BeginRead(u8),
    EndCycle,
    BeginWrite(u8, u8, u8),
    OutsideLevels(u8, u8, u8),
}

// How many events an exchange has.
pub(super) const LENGTH: usize = 6;

pub(super) type Exchange = [Planned; LENGTH];

// The first of the two that set modes and enables.
pub(super) const SETTINGS: u8 = 10;

pub(super) const EXCHANGES: [Exchange; 32] = [
    // A byte comes in at A and is read.
    [
        OutsideLevels(PORT_A, 0xff, 0x00), // any levels
        OutsideLevels(PORT_C, 0x00, 0xef), // STB falls, the other pins high
        OutsideLevels(PORT_C, 0x00, 0xff), // and rises
        BeginRead(PORT_A),
        EndCycle,
        OutsideLevels(PORT_C, 0xff, 0x00), // any levels of C
    ],
    // One comes in before the last is read.
    [
        OutsideLevels(PORT_C, 0xef, 0x00), // STB falls, the other pins at any level
        OutsideLevels(PORT_C, 0xef, 0x10), // and rises
        OutsideLevels(PORT_C, 0xef, 0x00), // falls again
        OutsideLevels(PORT_C, 0xef, 0x10), // and rises
        BeginRead(PORT_A),
        EndCycle,
    ],
    // One comes in within a read, and one behind it.
    [
        BeginRead(PORT_A),
        OutsideLevels(PORT_C, 0x00, 0xef), // STB falls
        OutsideLevels(PORT_C, 0xef, 0x10), // and rises
        EndCycle,
        OutsideLevels(PORT_C, 0xef, 0x00), // STB falls
        OutsideLevels(PORT_C, 0x00, 0xff), // and rises
    ],
    // A byte goes out at A, and one stays.
    [
        BeginWrite(PORT_A, 0xff, 0x00),
        EndCycle,
        OutsideLevels(PORT_C, 0x00, 0xbf), // ACK falls, the other pins high
        OutsideLevels(PORT_C, 0x00, 0xff), // and rises
        BeginWrite(PORT_A, 0xff, 0x00),
        EndCycle,
    ],
    // One is written over another and goes out.
    [
        BeginWrite(PORT_A, 0xff, 0x00),
        EndCycle,
        BeginWrite(PORT_A, 0xff, 0x00),
        EndCycle,
        OutsideLevels(PORT_C, 0xbf, 0x00), // ACK falls, the other pins at any level
        OutsideLevels(PORT_C, 0xbf, 0x40), // and rises
    ],
    // A byte comes in at B and is read.
    [
        OutsideLevels(PORT_B, 0xff, 0x00), // any levels
        OutsideLevels(PORT_C, 0x00, 0xfb), // STB falls, the other pins high
        OutsideLevels(PORT_C, 0x00, 0xff), // and rises
        BeginRead(PORT_B),
        EndCycle,
        OutsideLevels(PORT_C, 0xff, 0x00), // any levels of C
    ],
    // One comes in before the last is read.
    [
        OutsideLevels(PORT_C, 0xfb, 0x00), // STB falls, the other pins at any level
        OutsideLevels(PORT_C, 0xfb, 0x04), // and rises
        OutsideLevels(PORT_C, 0xfb, 0x00), // falls again
        OutsideLevels(PORT_C, 0xfb, 0x04), // and rises
        BeginRead(PORT_B),
        EndCycle,
    ],
    // One comes in within a read, and one behind it.
    [
        BeginRead(PORT_B),
        OutsideLevels(PORT_C, 0x00, 0xfb), // STB falls
        OutsideLevels(PORT_C, 0xfb, 0x04), // and rises
        EndCycle,
        OutsideLevels(PORT_C, 0xfb, 0x00), // STB falls
        OutsideLevels(PORT_C, 0x00, 0xff), // and rises
    ],
    // A byte goes out at B, and one stays.
    [
        BeginWrite(PORT_B, 0xff, 0x00),
        EndCycle,
        OutsideLevels(PORT_C, 0x00, 0xfb), // ACK falls, the other pins high
        OutsideLevels(PORT_C, 0x00, 0xff), // and rises
        BeginWrite(PORT_B, 0xff, 0x00),
        EndCycle,
    ],
    // One is written over another and goes out.
    [
        BeginWrite(PORT_B, 0xff, 0x00),
        EndCycle,
        BeginWrite(PORT_B, 0xff, 0x00),
        EndCycle,
        OutsideLevels(PORT_C, 0xfb, 0x00), // ACK falls, the other pins at any level
        OutsideLevels(PORT_C, 0xfb, 0x04), // and rises
    ],
    // Any mode, and the enables of A.
    [
        BeginWrite(CONTROL, 0x7f, 0x80), // a mode word
        EndCycle, // takes effect
        BeginWrite(CONTROL, 0x70, 0x09), // pin 4 set
        EndCycle, // takes effect
        BeginWrite(CONTROL, 0x70, 0x0d), // pin 6 set
        EndCycle, // takes effect
    ],
    // Mode 1 in both groups, by one of four words, so that the same one often comes again; and enables.
    [
        BeginWrite(CONTROL, 0x12, 0xa4), // a mode word
        EndCycle, // takes effect
        BeginWrite(CONTROL, 0x70, 0x05), // pin 2 set
        EndCycle, // takes effect
        BeginWrite(CONTROL, 0x70, 0x09), // pin 4 set
        EndCycle, // takes effect
    ],
    // Bytes wait at A and B as a mode word takes effect.
    [
        BeginWrite(PORT_A, 0xff, 0x00),
        EndCycle,
        BeginWrite(PORT_B, 0xff, 0x00),
        EndCycle,
        BeginWrite(CONTROL, 0x7f, 0x80), // a mode word
        EndCycle, // takes effect
    ],
    // The lines of C.
    [
        BeginWrite(PORT_C, 0xff, 0x00),
        EndCycle,
        BeginWrite(CONTROL, 0x7f, 0x00), // any pin set or reset
        EndCycle, // takes effect
        BeginRead(PORT_C),
        EndCycle,
    ],
    // STB of A falls before the byte has settled.
    [
        OutsideLevels(PORT_C, 0x00, 0xef), // STB falls
        OutsideLevels(PORT_A, 0xff, 0x00), // any levels
        OutsideLevels(PORT_C, 0xef, 0x10), // STB rises
        OutsideLevels(PORT_A, 0xff, 0x00), // levels that are too late
        BeginRead(PORT_A),
        EndCycle,
    ],
    // Levels come on A within a read, and the next one finds no byte.
    [
        OutsideLevels(PORT_C, 0x00, 0xef), // STB falls
        BeginRead(PORT_A),
        OutsideLevels(PORT_A, 0xff, 0x00), // any levels
        EndCycle,
        BeginRead(PORT_A),
        EndCycle,
    ],
    // STB of B falls before the byte has settled.
    [
        OutsideLevels(PORT_C, 0x00, 0xfb), // STB falls
        OutsideLevels(PORT_B, 0xff, 0x00), // any levels
        OutsideLevels(PORT_C, 0xfb, 0x04), // STB rises
        OutsideLevels(PORT_B, 0xff, 0x00), // levels that are too late
        BeginRead(PORT_B),
        EndCycle,
    ],
    // Levels come on B within a read, and the next one finds no byte.
    [
        OutsideLevels(PORT_C, 0x00, 0xfb), // STB falls
        BeginRead(PORT_B),
        OutsideLevels(PORT_B, 0xff, 0x00), // any levels
        EndCycle,
        BeginRead(PORT_B),
        EndCycle,
    ],
    // One of the four words of mode 1 in both groups finds pins 4 and 2 low, and the levels that were on A come once more.
    [
        OutsideLevels(PORT_A, 0x00, 0x55), // levels
        OutsideLevels(PORT_C, 0x00, 0xeb), // pins 4 and 2 fall
        BeginWrite(CONTROL, 0x12, 0xa4), // a mode word
        EndCycle, // takes effect
        OutsideLevels(PORT_A, 0x00, 0x55), // the same levels
        OutsideLevels(PORT_C, 0x00, 0xff), // the pins rise
    ],
    // IBF of A is forced, A is read, and IBF is forced again.
    [
        BeginWrite(CONTROL, 0x71, 0x0a), // pin 5 set or reset
        EndCycle, // takes effect
        BeginRead(PORT_A),
        EndCycle,
        BeginWrite(CONTROL, 0x71, 0x0a), // pin 5 set or reset
        EndCycle, // takes effect
    ],
    // It is forced twice over a byte that waits.
    [
        OutsideLevels(PORT_C, 0x00, 0xef), // STB falls
        OutsideLevels(PORT_C, 0xef, 0x10), // and rises
        BeginWrite(CONTROL, 0x71, 0x0a), // pin 5 set or reset
        EndCycle, // takes effect
        BeginWrite(CONTROL, 0x71, 0x0a), // pin 5 set or reset
        EndCycle, // takes effect
    ],
    // A byte is struck and another planted while STB is low, and then levels come.
    [
        OutsideLevels(PORT_C, 0x00, 0xef), // STB falls
        BeginWrite(CONTROL, 0x70, 0x0a), // pin 5 reset
        EndCycle, // takes effect
        BeginWrite(CONTROL, 0x70, 0x0b), // pin 5 set
        EndCycle, // takes effect
        OutsideLevels(PORT_A, 0xff, 0x00), // any levels
    ],
    // OBF of A is forced, ACK falls, and OBF is forced again.
    [
        BeginWrite(CONTROL, 0x71, 0x0e), // pin 7 set or reset
        EndCycle, // takes effect
        OutsideLevels(PORT_C, 0x00, 0xbf), // ACK falls
        OutsideLevels(PORT_C, 0x00, 0xff), // and rises
        BeginWrite(CONTROL, 0x71, 0x0e), // pin 7 set or reset
        EndCycle, // takes effect
    ],
    // It is forced twice over a byte that waits.
    [
        BeginWrite(PORT_A, 0xff, 0x00),
        EndCycle,
        BeginWrite(CONTROL, 0x71, 0x0e), // pin 7 set or reset
        EndCycle, // takes effect
        BeginWrite(CONTROL, 0x71, 0x0e), // pin 7 set or reset
        EndCycle, // takes effect
    ],
    // The flag of B is forced, B is read, and the flag is forced again.
    [
        BeginWrite(CONTROL, 0x71, 0x02), // pin 1 set or reset
        EndCycle, // takes effect
        BeginRead(PORT_B),
        EndCycle,
        BeginWrite(CONTROL, 0x71, 0x02), // pin 1 set or reset
        EndCycle, // takes effect
    ],
    // It is forced twice, over the byte that STB brings in or around the fall of ACK.
    [
        BeginWrite(CONTROL, 0x71, 0x02), // pin 1 set or reset
        EndCycle, // takes effect
        OutsideLevels(PORT_C, 0x00, 0xfb), // STB or ACK falls
        OutsideLevels(PORT_C, 0xfb, 0x04), // and rises
        BeginWrite(CONTROL, 0x71, 0x02), // pin 1 set or reset
        EndCycle, // takes effect
    ],
    // It is forced twice over a byte that waits to go out.
    [
        BeginWrite(PORT_B, 0xff, 0x00),
        EndCycle,
        BeginWrite(CONTROL, 0x71, 0x02), // pin 1 set or reset
        EndCycle, // takes effect
        BeginWrite(CONTROL, 0x71, 0x02), // pin 1 set or reset
        EndCycle, // takes effect
    ],
    // A byte is struck and another planted while STB is low, and then levels come.
    [
        OutsideLevels(PORT_C, 0x00, 0xfb), // STB falls
        BeginWrite(CONTROL, 0x70, 0x02), // pin 1 reset
        EndCycle, // takes effect
        BeginWrite(CONTROL, 0x70, 0x03), // pin 1 set
        EndCycle, // takes effect
        OutsideLevels(PORT_B, 0xff, 0x00), // any levels
    ],
    // Any three pins, among them those of INTR.
    [
        BeginWrite(CONTROL, 0x7f, 0x00), // any pin set or reset
        EndCycle, // takes effect
        BeginWrite(CONTROL, 0x7f, 0x00), // any pin set or reset
        EndCycle, // takes effect
        BeginWrite(CONTROL, 0x7f, 0x00), // any pin set or reset
        EndCycle, // takes effect
    ],
    // A mode word is read back, and a second read begun before the first has ended.
    [
        BeginWrite(CONTROL, 0x7f, 0x80), // a mode word
        EndCycle, // takes effect
        BeginRead(CONTROL),
        BeginRead(CONTROL), // a second one begins
        EndCycle, // the first ends
        OutsideLevels(PORT_C, 0xff, 0x00), // any levels of C
    ],
    // Any pin is set or reset, control is read, and a byte comes in at A within the read.
    [
        BeginWrite(CONTROL, 0x7f, 0x00), // any pin set or reset
        EndCycle, // takes effect
        BeginRead(CONTROL),
        OutsideLevels(PORT_C, 0x00, 0xef), // STB falls
        OutsideLevels(PORT_C, 0xef, 0x10), // and rises
        EndCycle,
    ],
    // Control is read while bytes wait at A and B.
    [
        OutsideLevels(PORT_C, 0x00, 0xeb), // STB of both falls
        OutsideLevels(PORT_C, 0x00, 0xff), // and rises
        BeginRead(CONTROL),
        EndCycle,
        BeginRead(PORT_A),
        EndCycle,
    ],
];
