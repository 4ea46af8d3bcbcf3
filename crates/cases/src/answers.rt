// A device with the answer to its last event.
use super::letters;
use bus::devices::{Device, step_numbers};
use bus::refusals::{self, FrameRefusal, Refusal};
use std::io;

#[derive(Clone, Copy)]
pub(super) struct Answered<D> {
    pub(super) device: D,
    answer: Result<u8, FrameRefusal<Refusal>>,
}

// What is named by the letters that one device alone has.
pub(super) trait Fields: Device {
    fn field(&self, rt: &impl Print, name: u8) -> io::Result<()>;
}

// A device that is put into a state, as if an event had led there that answered 00.
pub(super) fn put<D>(device: D) -> Answered<D> {
    Answered {
        device,
        answer: Ok(0),
    }
}

impl<D: Device> Answered<D> {
    // The answer is as after an event that answered 00.
    pub(super) fn forget(&mut self) {
        self.answer = Ok(0);
    }

    pub(super) fn event(&mut self, kind: u8, first: u8, second: u8) {
        self.answer = step_numbers(&mut self.device, kind, first, second);
    }
}

impl<D: Fields> Answered<D> {
    // What a letter names of the device and of its last answer.
    pub(super) fn field(&self, rt: &impl Print, name: u8) -> io::Result<()> {
        match name {
            b'n' => print!(rt; "{:02X}", refusals::number(&self.answer)),
            b'y' => print!(rt; "{:02X}", self.answer.unwrap_or(0)),
            b'A'..=b'D' | b'a'..=b'd' => letters::pins(rt, &self.device, name),
            _ => self.device.field(rt, name),
        }
    }
}
