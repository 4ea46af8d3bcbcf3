// What the chip itself says on port C: IBF, OBF and INTR. They are worked out from the state each time and kept nowhere.

use super::{Machine, cycles, digits, handshake, words};

// IBF or OBF. An output never fetches: a mark that says so is as good as empty, and leaves OBF at 1.
pub(super) fn buffer_flag(machine: Machine, channel: usize) -> bool {
    let low = match channel % 2 {
        0 => handshake::EMPTY,
        _ => handshake::WAITING,
    };
    machine.fill[channel % 4] != low
}

// Whether a channel raises INTR, whose strobe is that pin. Its own cycle holds it down; one of another port, or of no port at all,
// holds nothing down.
pub(super) fn requests(machine: Machine, channel: usize, pin: usize) -> bool {
    let own = match channel % 2 {
        0 => cycles::READING,
        _ => cycles::WRITING,
    };
    words::strobed(machine.word, channel)
        && buffer_flag(machine, channel)
        && digits::bit(machine.enable & machine.outside_c, pin)
        && !(machine.phase == own && machine.place as usize == channel / 2)
}
