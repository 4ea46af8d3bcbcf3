// The events of a history of the 8355: most stand in an exchange, and one in six is drawn by itself.
use super::super::draws;
use super::super::events::Event;
use super::super::exchanges::Exchange;
use super::super::exchanges::Planned::{BeginRead, BeginWrite, EndCycle, OutsideLevels, Reset};
use i8355::{DIRECTION_A, PORT_A};

// The first port that there is not.
const NO_PORT: u8 = 2;

// The exchanges of port A. In those of port B each first operand is one more, as its addresses are; a reset and an end ignore theirs.
const EXCHANGES: [Exchange; 6] = [
    // A byte waits behind the pins before they are outputs.
    [
        BeginWrite(PORT_A, 0xff, 0x00),
        EndCycle,
        BeginWrite(DIRECTION_A, 0xff, 0x00),
        EndCycle,
        BeginRead(PORT_A),
        EndCycle,
    ],
    // Levels come before a read and within it.
    [
        OutsideLevels(PORT_A, 0xff, 0x00), // any levels
        BeginRead(PORT_A),
        OutsideLevels(PORT_A, 0xff, 0x00), // other levels
        EndCycle,
        BeginRead(PORT_A),
        EndCycle,
    ],
    // All pins are outputs, and levels come within a write.
    [
        BeginWrite(DIRECTION_A, 0x00, 0xff),
        EndCycle,
        BeginWrite(PORT_A, 0xff, 0x00),
        OutsideLevels(PORT_A, 0xff, 0x00), // any levels
        EndCycle,
        OutsideLevels(PORT_A, 0xff, 0x00), // other levels
    ],
    // The pins turn around over a latch that stays.
    [
        BeginWrite(DIRECTION_A, 0xff, 0x00),
        OutsideLevels(NO_PORT, 0xff, 0x00), // levels on a port that there is not
        EndCycle,
        OutsideLevels(PORT_A, 0xff, 0x00), // any levels
        BeginWrite(DIRECTION_A, 0xff, 0x00),
        EndCycle,
    ],
    // One byte is written over another.
    [
        BeginWrite(PORT_A, 0xff, 0x00),
        EndCycle,
        BeginWrite(PORT_A, 0xff, 0x00),
        EndCycle,
        BeginRead(PORT_A),
        EndCycle,
    ],
    // A reset drops a write, and the latch stays.
    [
        BeginWrite(PORT_A, 0xff, 0x00),
        Reset,
        EndCycle, // nothing is left to end
        BeginWrite(DIRECTION_A, 0xff, 0x00),
        EndCycle, // the pins show what the latch held
        OutsideLevels(PORT_A, 0xff, 0x00), // any levels
    ],
];

// How many of 256 events are drawn by themselves.
const ALONE: u64 = 43;

// The event at a step of a history, which counts from 0, in the exchange of that number.
pub(super) fn draw(number: u64, exchange: u8, step: u64) -> Event {
    if number >> 56 < ALONE {
        return draws::alone(number);
    }
    let port = (exchange as usize / EXCHANGES.len() % 2) as u8;
    let planned = draws::at(&EXCHANGES[exchange as usize % EXCHANGES.len()], step);
    let event = draws::planned(planned, number);
    Event {
        first: event.first | port,
        ..event
    }
}
