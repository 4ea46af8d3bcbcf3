// Arbitrary states of the rack: every field is drawn by itself, also a cycle at a place without a card or at a register that there is
// not, to which no history leads. And a state of the proved model in the form of the second one.
use super::super::apart::Machine;
use super::super::random::{far, next};
use super::super::twins::Bus;
use super::super::{states, twins};
use super::apart::{NOWHERE, Shelf};
use super::bases;
use super::bases::Bases;
use bus::Phase;
use chip::{Chip, Core, Edition};
use rack::Rack;

fn core(seed: u64) -> Core {
    states::arbitrary(seed).core
}

fn cores(seed: u64) -> [Core; 8] {
    let two = next(seed);
    let three = next(two);
    let four = next(three);
    [
        core(seed),
        core(two),
        core(three),
        core(four),
        core(far(seed)),
        core(far(two)),
        core(far(three)),
        core(far(four)),
    ]
}

// The last number of a register in a rack of eight cards, which have four each.
const LAST_REGISTER: u8 = 31;

// A rack with the bases of the list, and as many cards as it says.
pub(super) fn arbitrary(bases: Bases, seed: u64) -> Rack {
    let number = next(seed);
    Rack {
        phase: states::phase(number, number >> 1, LAST_REGISTER),
        count: bases.count,
        bases: bases::in_places(bases),
        cores: cores(far(number)),
    }
}

// The chip of the second model for the card at a place. The cycle runs on it only if the number on the bus is one of that card.
fn twin_at(rack: &Rack, place: u8) -> Machine {
    let core = rack.cores[(place % 8) as usize];
    let bus = twins::running(rack.phase);
    let mut machine = twins::machine(&Chip {
        phase: Phase::Idle,
        edition: Edition::Older,
        core,
    });
    if taken(&bus) == place {
        machine.phase = bus.phase;
        machine.place = bus.place / 8;
        machine.data = bus.data;
    }
    machine
}

// The place of the card on which a cycle runs.
fn taken(bus: &Bus) -> u8 {
    if bus.phase == twins::IDLE {
        return NOWHERE;
    }
    bus.place % 8
}

pub(super) fn twin(rack: &Rack) -> Shelf {
    Shelf {
        cards: rack.count.min(8),
        taken: taken(&twins::running(rack.phase)),
        chips: std::array::from_fn(|place| twin_at(rack, place as u8)),
    }
}
