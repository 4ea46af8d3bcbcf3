// New outside levels, the falls of STB and ACK among them, and the input latches that follow them while STB is low.

use super::{Machine, channels, digits, handshake, words};

// The outside levels of port 0, 1 or 2 become `level`. Only the pins 6, 4 and 2 of port C can be the outside's strobes.
pub(super) fn moved(mut machine: Machine, port: u8, level: u8) -> Machine {
    let fell = machine.outside_c & !level;
    match port {
        0 => {
            machine.outside_a = level;
            machine = follow(machine, channels::A_IN, level, 4);
        }
        1 => {
            machine.outside_b = level;
            machine = follow(machine, channels::B_IN, level, 2);
        }
        _ => {
            machine.outside_c = level;
            machine = edge(machine, channels::A_IN, fell, 4);
            machine = edge(machine, channels::A_OUT, fell, 6);
            machine = edge(machine, channels::B_IN, fell, 2);
            machine = edge(machine, channels::B_OUT, fell, 2);
        }
    }
    machine
}

// While its STB is low the latch of a strobed input takes what its port is given, whatever the channel's mark. That is no new byte, so
// only the latch moves. Levels equal to the last are taken too: a mode word may have cleared the latch under a low STB.
fn follow(mut machine: Machine, channel: usize, level: u8, pin: usize) -> Machine {
    if words::strobed(machine.word, channel) && !digits::bit(machine.outside_c, pin) {
        machine.latch[channel % 4] = level;
    }
    machine
}

// On port C only a fall acts, and only in a channel that is strobed now. A byte that is strobed in is what is put on the pins, also where the
// chip drives the port itself; one that is acknowledged frees its channel at once.
fn edge(machine: Machine, channel: usize, fell: u8, pin: usize) -> Machine {
    if !(digits::bit(fell, pin) && words::strobed(machine.word, channel)) {
        return machine;
    }
    match channel {
        channels::A_IN => handshake::offer(machine, channel, machine.outside_a),
        channels::B_IN => handshake::offer(machine, channel, machine.outside_b),
        _ => handshake::settle(machine, channel, handshake::HANDED_OVER, handshake::EMPTY),
    }
}
