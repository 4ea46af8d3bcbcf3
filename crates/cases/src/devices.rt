// The device that the cases are at, one of two, and what a sign does to either.
use super::answers::Answered;
use super::{states, states_8355};
use chip::{Chip, Edition};
use i8355::Chip8355;
use std::io;

// A device, with the answer to its last event. The 82C55A is a chip of the newer edition. An enum, since a sign puts one device in the place of
// the other.
#[derive(Clone, Copy)]
pub(super) enum Last {
    I8255A(Answered<Chip>),
    I8355(Answered<Chip8355>),
}

impl Last {
    pub(super) fn at_power_up() -> Self {
        Last::I8255A(states::at_power_up(Edition::Older))
    }

    pub(super) fn event(&mut self, digits: u64) {
        let [_, _, _, _, _, kind, first, second] = digits.to_be_bytes();
        match self {
            Last::I8255A(answered) => answered.event(kind, first, second),
            Last::I8355(answered) => answered.event(kind, first, second),
        }
    }

    // Three letters put a device at power-up, whichever there was before; any other letter is for the device that is there.
    pub(super) fn put(&mut self, name: u8) {
        match (name, &mut *self) {
            (b'P', _) => *self = Last::at_power_up(),
            (b'N', _) => *self = Last::I8255A(states::at_power_up(Edition::Newer)),
            (b'Q', _) => *self = Last::I8355(states_8355::at_power_up()),
            (_, Last::I8255A(answered)) => {
                states::put(&mut answered.device, name);
                answered.forget();
            }
            (_, Last::I8355(answered)) => {
                states_8355::put(&mut answered.device, name);
                answered.forget();
            }
        }
    }

    pub(super) fn field(&self, rt: &impl Print, name: u8) -> io::Result<()> {
        match self {
            Last::I8255A(before) => before.field(rt, name),
            Last::I8355(before) => before.field(rt, name),
        }
    }
}
