// What a model shows, says, keeps and counts after an event, in one form for both models.
use super::apart::{Answer, Explanation, Machine};
use super::proved::Stepped;
use super::{apart, proved, twins};
use bus::Pins;
use bus::devices::Device;
use chip::Chip;

// The answer; the pins of A, of B, of C and of a port that there is not; what is said of the INTR of A, of B and of a group that there is not; and
// all that is kept and counted. The mode word decides which port and which group that there is not is asked.
#[derive(Clone, Copy, Debug, PartialEq, Eq)]
pub(super) struct View {
    pub(super) number: u8,
    pub(super) byte: u8,
    pub(super) pins: [Pins; 4],
    pub(super) said: [Explanation; 3],
    pub(super) machine: Machine,
}

pub(super) fn of_proved(last: &Stepped<Chip>) -> View {
    let chip = &last.device;
    let word = chip.core.word;
    let explain = |group| proved::explanation(chip.explain_numbered(group));
    View {
        number: last.number,
        byte: last.byte,
        pins: [
            chip.pins(0),
            chip.pins(1),
            chip.pins(2),
            chip.pins(word | 3),
        ],
        said: [explain(0), explain(1), explain(word | 2)],
        machine: twins::machine(chip),
    }
}

pub(super) fn pins_of_apart(machine: Machine, port: u8) -> Pins {
    Pins {
        levels: apart::levels(machine, port),
        driven: apart::driven(machine, port),
    }
}

pub(super) fn of_apart(last: &Answer) -> View {
    let machine = last.machine;
    let pins = |port| pins_of_apart(machine, port);
    let explain = |group| apart::explain(machine, group);
    View {
        number: last.number,
        byte: last.byte,
        pins: [pins(0), pins(1), pins(2), pins(machine.word | 3)],
        said: [explain(0), explain(1), explain(machine.word | 2)],
        machine,
    }
}
