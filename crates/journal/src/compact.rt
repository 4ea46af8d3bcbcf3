//! Compaction: of the words of a journal those whose events change the chip are moved to the front, with zero words behind them.
ghost use Rattle.std.specs.Prelude.{◌≡◌, true, not, length};
ghost use Rattle.bus.specs.declared.events.Event.TheVariants.{OutsideLevels};
ghost use Rattle.bus.specs.Answers.{raw, after_event, given_for};
ghost use Rattle.bus.specs.Device.{number_in};
ghost use Rattle.chip.specs.Step.{device};
ghost use Rattle.journal.specs.Words.{event_in, is_frame, all_frames};
ghost use Rattle.journal.specs.Same.{same_state, standing_at, is_cleared, none_is_on, is_at_rest};
ghost use Rattle.journal.specs.Trim.{after_word, kept_from, filled_up};

use super::words::Logged;
use bus::Phase;
use bus::devices::Device;
use bus::events::Event;
use bus::refusals::judge;
use chip::channel::Fill;
use chip::{Chip, Enables, PORT_A, PORT_B, POWER_UP_WORD, Port};

// The levels on a port's lines, and what stands in the latch of its input. Port C has no such latch.
#[derive(Clone, Copy, Debug, PartialEq, Eq)]
struct Standing {
    levels: u8,
    latch: u8,
}

// What tells whether levels that come onto a port change the chip. Those that stand there already make no edge on port C, but on port A or B they
// may go through to the latch of its input.
fn standing_at(chip: &Chip, port: u8) -> Standing
    ensures { result ≡ standing_at chip.now port }
{
    match port {
        PORT_A => Standing {
            levels: chip.core.a.outside,
            latch: chip.core.a.input.latch,
        },
        PORT_B => Standing {
            levels: chip.core.b.outside,
            latch: chip.core.b.input.latch,
        },
        _ => Standing {
            levels: chip.core.c.outside,
            latch: 0,
        },
    }
}

// Lets levels come onto a port, and says whether the chip is another one then.
#[tactic(auto, using(crate::proofs::Changing::levels_told))]
fn levels_change(chip: &mut Chip, port: u8, levels: u8) -> bool
    ensures chip_after { chip.new ≡ after_event device (OutsideLevels port levels) chip.old }
    ensures value { result ≡ not (same_state chip.old chip.new) }
{
    let before = standing_at(chip, port);
    chip.accept(Event::OutsideLevels(port, levels));
    standing_at(chip, port) != before
}

// Whether both channels of a port are as a reset leaves them. A reset moves a tally only where a byte waits, so that none is asked.
fn is_cleared(port: &Port) -> bool
    ensures { result ≡ is_cleared port.now }
{
    port.input.fill == Fill::Empty
        && port.input.latch == 0
        && port.output.fill == Fill::Empty
        && port.output.latch == 0
}

fn none_is_on(enables: &Enables) -> bool
    ensures { result ≡ none_is_on enables.now }
{
    !(enables.input || enables.output || enables.b)
}

// Whether the chip is as a reset leaves it. To copy the whole chip and compare it would take twice the time.
fn is_at_rest(chip: &Chip) -> bool
    ensures { result ≡ is_at_rest chip.now }
{
    matches!(chip.phase, Phase::Idle)
        && chip.core.word == POWER_UP_WORD
        && chip.core.c.latch == 0
        && none_is_on(&chip.core.inte)
        && is_cleared(&chip.core.a)
        && is_cleared(&chip.core.b)
}

// Lets an event that is accepted happen to the chip, and says whether it is another one then. A cycle that begins or ends changes the bus at least.
#[tactic(auto, using(crate::proofs::Changing::cycle_changes, crate::proofs::AtRest::reset_told))]
fn accept_changes(chip: &mut Chip, event: Event) -> bool
    requires { number_in device chip.old (raw event).kind (raw event).first ≡ 0 }
    ensures chip_after { chip.new ≡ after_event device event chip.old }
    ensures value { result ≡ not (same_state chip.old chip.new) }
{
    match event {
        Event::Reset => {
            let changes = !is_at_rest(chip);
            chip.accept(event);
            changes
        }
        Event::BeginRead(_) | Event::EndCycle | Event::BeginWrite(_, _) => {
            chip.accept(event);
            true
        }
        Event::OutsideLevels(port, levels) => levels_change(chip, port, levels),
    }
}

// Lets an event happen to the chip, and says whether it is another one then. A refused event changes nothing.
#[tactic(auto, using(crate::proofs::Changing::unchanged), unfolding(bus::specs::Device::step_in))]
fn event_changes(chip: &mut Chip, event: Event) -> bool
    ensures chip_after { chip.new ≡ (given_for device chip.old event).state }
    ensures value { result ≡ not (same_state chip.old chip.new) }
{
    match judge(chip.limits(), chip.phase(), event) {
        Ok(()) => accept_changes(chip, event),
        Err(_) => false,
    }
}

// The same with the event of a word, which is a frame.
#[tactic(auto, using(crate::proofs::Changing::by_word), unfolding(chip::specs::Step::step_of))]
fn changes(chip: &mut Chip, word: u32) -> bool
    requires { is_frame (event_in word) ≡ true }
    ensures chip_after { chip.new ≡ after_word chip.old word }
    ensures value { result ≡ not (same_state chip.old chip.new) }
{
    let logged = Logged::read(word);
    match Event::numbered(logged.kind as u8, logged.first, logged.second) {
        Some(event) => event_changes(chip, event),
        None => false,
    }
}

// Moves the words whose events change the chip to the front, leaves zero words behind them, and gives their count. Each word is taken out of its
// place before it is known whether it is kept, so that one pass does both. By an index, since the words are moved within the one slice that is lent.
pub(super) fn keep(words: &mut [u32], mut chip: Chip) -> usize
    requires { all_frames words.old ≡ true }
    ensures value { result ≡ length (kept_from chip words.old) }
    ensures words_after { words.new ≡ filled_up (kept_from chip words.old) (length words.old) }
{
    let mut kept = 0;
    for at in 0..words.len() {
        let word = words[at];
        words[at] = 0;
        if changes(&mut chip, word) {
            words[kept] = word;
            kept += 1;
        }
    }
    kept
}
