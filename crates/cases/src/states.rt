// The chip, of either edition, in a state that no single event gives it: at power-up, after very many strobes, or by hand, where no history leads
// there.
use super::answers::Answered;
use super::{answers, phases};
use bus::devices::step;
use bus::events::Event;
use bus::refusals::Refusal;
use chip::channel::Fill;
use chip::{Chip, Core, Edition, Levels, PORT_C};

// The cases are those of lines that idle high.
pub(super) fn at_power_up(edition: Edition) -> Answered<Chip> {
    answers::put(Chip::new(edition, Levels::HIGH))
}

// The STB of port A falls and rises.
fn strobe(chip: &mut Chip) -> Result<(), Refusal> {
    step(chip, Event::OutsideLevels(PORT_C, 0xef))?;
    step(chip, Event::OutsideLevels(PORT_C, 0xff))?;
    Ok(())
}

// One strobe short of as many as a tally can tell apart.
fn strobes(chip: &mut Chip) -> Result<(), Refusal> {
    for _ in 0..65535 {
        strobe(chip)?;
    }
    Ok(())
}

// The mode word B0 without its bit 7; the output of A fetching; the input of A fetching, whatever the bus does; bytes waiting in both
// channels of A.
fn core_by_hand(core: &mut Core, name: u8) {
    match name {
        b'W' => core.word = 0x30,
        b'F' => core.a.output.fill = Fill::Fetching,
        b'G' => core.a.input.fill = Fill::Fetching,
        b'U' => {
            core.a.input.fill = Fill::Waiting;
            core.a.output.fill = Fill::Waiting;
        }
        _ => {}
    }
}

fn by_hand(chip: &mut Chip, name: u8) {
    phases::by_hand(&mut chip.phase, name);
    core_by_hand(&mut chip.core, name);
}

pub(super) fn put(chip: &mut Chip, name: u8) {
    match name {
        // Levels on a port that exists are never refused.
        b'S' => {
            let _ = strobes(chip);
        }
        _ => by_hand(chip, name),
    }
}
