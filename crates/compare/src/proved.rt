// The proved devices, as the second models are asked: by the numbers of an event, and answered by the state, the number and the byte.
use super::apart::Explanation;
use super::events::Event;
use bus::devices::{Device, step_numbers};
use bus::refusals::{self, Numbered};
use chip::reasons::Explained;

// A number beside a byte, and no `Result`, since the second models answer so.
#[derive(Clone, Copy)]
pub(super) struct Stepped<D> {
    pub(super) device: D,
    pub(super) number: u8,
    pub(super) byte: u8,
}

impl<D> Stepped<D> {
    // A device before its first event.
    pub(super) fn at_start(device: D) -> Self {
        Stepped {
            device,
            number: 0,
            byte: 0,
        }
    }

    // The device has answered an event so.
    pub(super) fn told<R: Numbered>(&mut self, answer: Result<u8, R>) {
        self.number = refusals::number(&answer);
        self.byte = answer.unwrap_or(0);
    }
}

impl<D: Device> Stepped<D> {
    pub(super) fn step(&mut self, event: Event) {
        let answer = step_numbers(&mut self.device, event.kind, event.first, event.second);
        self.told(answer);
    }
}

// There is no such group, and so no half.
const NO_GROUP: Explanation = Explanation {
    number: 2,
    input: 0,
    output: 0,
};

// What is said of an INTR, in the form of the second model.
pub(super) fn explanation(explained: Option<Explained>) -> Explanation {
    let Some(explained) = explained else {
        return NO_GROUP;
    };
    let halves = explained.halves();
    Explanation {
        number: 0,
        input: halves.input,
        output: halves.output,
    }
}
