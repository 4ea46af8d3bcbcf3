// The numbers by which an event is refused.

use super::{Machine, cycles, parts};

// The first number that applies, or 0 for an event that is accepted. What a kind has no operand for is not looked at.
pub(super) fn refusal(machine: Machine, kind: u8, first: u8) -> u8 {
    let busy = machine.phase != cycles::IDLE;
    let begins = kind == 1 || kind == 3;
    if kind == 4 || kind > 5 {
        return 1;
    }
    if (begins && first > 3) || (kind == 5 && first > 2) {
        return 2;
    }
    if kind == 1 && first == 3 && machine.part == parts::I8255A {
        return 3;
    }
    if begins && busy {
        return 4;
    }
    if kind == 2 && !busy {
        return 5;
    }
    0
}
