// The events of a history. Most stand in an exchange; one in eight is drawn by itself.
use super::events::{Event, RESET};
use super::exchanges::{EXCHANGES, Exchange, LENGTH, Planned};
use super::random::byte;
use bus::kinds::Kind;

// Whether a new exchange begins at a step: at every sixth.
pub(super) fn begins(step: u64) -> bool {
    step % LENGTH as u64 == 0
}

// The exchange that begins, by its number.
pub(super) fn new_exchange(number: u64) -> u8 {
    byte(number >> 40)
}

// An event by itself: most often one near the limits of kinds and operands, so that every refusal occurs; else anything at all, or a reset,
// which is rare as it undoes so much.
pub(super) fn alone(number: u64) -> Event {
    let chance = number >> 56;
    if chance < 6 {
        return Event::from(number);
    }
    if chance < 8 {
        return RESET;
    }
    Event {
        kind: (1 + (number >> 16) % 6) as u8,
        first: ((number >> 32) % 6) as u8,
        second: byte(number),
    }
}

// The event of an exchange at a step.
pub(super) fn at(exchange: &Exchange, step: u64) -> Planned {
    exchange[(step % LENGTH as u64) as usize]
}

// An event as it stands in an exchange, with the bits that are drawn. Operands that its kind lacks are 0.
pub(super) fn planned(planned: Planned, number: u64) -> Event {
    let (kind, first, second) = match planned {
        Planned::Reset => (Kind::Reset, 0, 0),
        Planned::BeginRead(address) => (Kind::BeginRead, address, 0),
        Planned::EndCycle => (Kind::EndCycle, 0, 0),
        Planned::BeginWrite(address, drawn, set) => {
            (Kind::BeginWrite, address, set | byte(number) & drawn)
        }
        Planned::OutsideLevels(port, drawn, set) => {
            (Kind::OutsideLevels, port, set | byte(number) & drawn)
        }
    };
    Event {
        kind: kind.number(),
        first,
        second,
    }
}

// The event at a step of a history, which counts from 0, in the exchange of that number.
pub(super) fn draw(number: u64, exchange: u8, step: u64) -> Event {
    if number >> 56 < 32 {
        return alone(number);
    }
    let exchange = &EXCHANGES[exchange as usize % EXCHANGES.len()];
    planned(at(exchange, step), number)
}
