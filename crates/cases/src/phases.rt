// What a letter puts on the bus by hand, the same for every device.
use bus::Phase;

// A read and a write at addresses that there are not; a read at 2, which no event of an 8355 begins; and one at 3, which no event of an 8255A
// or an 8355 begins.
pub(super) fn by_hand(phase: &mut Phase, name: u8) {
    match name {
        b'R' => *phase = Phase::Reading(7),
        b'T' => *phase = Phase::Writing(9, 0x55),
        b'D' => *phase = Phase::Reading(2),
        b'E' => *phase = Phase::Reading(3),
        _ => {}
    }
}
