// What the histories were made of and what happened in them, in one row of counts:
//
//     0 histories, 1 events, 2 to 7 by kind, of which the last is for numbers that are none, 8 to 13 by number
//     14 to 41 what became of bytes, in the order of the tallies; 42 bit words, 43 mode words; 44 to 52 bit words by the role of their pin
//     53 to 76 flags that were forced: for each channel to 0 and to 1, and for each of these by the mark that the channel had
//     77 to 83 what was said of the halves of INTR, by its number; 84 and 85 levels that went through to the input latch of A and of B
//     and changed it
//     86 reads of control that were answered, 87 those of them while an INTR was high; 88 those refused with 3, 89 those of them in a
//     cycle; 90 those refused with 4; 91 differences
//
// The 8355 has a row of its own, of which the first fourteen are the same.
ghost use Rattle.std.specs.Prelude.{◌<◌};

use super::apart::{Explanation, Machine};
use super::events::Event;
use super::row::Row;
use super::views::View;
use super::{apart, twins};
use bus::kinds::Kind;
use bus::refusals::{Numbered, Refusal};
use chip::reasons::Reason;

pub(super) type Counts = Row<View, 92>;

pub(super) const NUMBERS: usize = 8;

const FATES: usize = 14;

const WORDS: usize = 42;

const ROLES: usize = 44;

const FORCED: usize = 53;

const REASONS: usize = 77;

const THROUGH_A: usize = 84;

const THROUGH_B: usize = 85;

const CONTROL_READ: usize = 86;

const CONTROL_READ_WHILE_HIGH: usize = 87;

const CONTROL_REFUSED: usize = 88;

const CONTROL_REFUSED_IN_CYCLE: usize = 89;

const CONTROL_KEPT_OUT: usize = 90;

// The control word that the event brought into effect, if it did: the end of a write to address 3.
fn word(counts: &mut Counts, kind: Option<Kind>, before: &Machine) {
    if kind != Some(Kind::EndCycle)
        || before.phase != twins::WRITING
        || before.place != chip::CONTROL
    {
        return;
    }
    let word = before.data;
    counts.add(WORDS + word as usize / 128, 1);
    if word < 128 {
        bit_word(
            counts,
            apart::role_named(before.word, word),
            word % 2,
            before,
        );
    }
}

// A bit word at a pin of that role, with its value and the chip before it.
fn bit_word(counts: &mut Counts, role: u8, value: u8, before: &Machine) {
    let channel = apart::flag_of(role);
    counts.add(ROLES + role as usize, 1);
    if let Some(mark) = before.fill.get(channel) {
        let place = FORCED + channel * 6;
        counts.add(place + (value % 2 * 3 + mark % 3) as usize, 1);
    }
}

// What is said of the INTR of A and of B, without that of the group that there is not.
fn of_a_and_b(said: &[Explanation; 3]) -> &[Explanation] {
    &said[..2]
}

// What is said of each half after the event.
fn reasons(counts: &mut Counts, after: &View) {
    for said in of_a_and_b(&after.said) {
        counts.add(REASONS + said.input as usize, 1);
        counts.add(REASONS + said.output as usize, 1);
    }
}

// The inputs of A and of B among the channels.
const A_IN: usize = 0;

const B_IN: usize = 2;

// Whether levels went through to the latch of an input: the latch changed, and no byte was offered.
fn went_through(before: &Machine, after: &Machine, channel: usize) -> bool
    requires { channel < 4 }
{
    let offered = channel * twins::PER_CHANNEL;
    before.latch[channel] != after.latch[channel] && before.tally[offered] == after.tally[offered]
}

// Counts levels that went through to the latch of A or of B. The end of a mode word changes a latch too, and is not counted.
fn followed(counts: &mut Counts, kind: Option<Kind>, before: &Machine, after: &Machine) {
    if kind != Some(Kind::OutsideLevels) {
        return;
    }
    counts.add(THROUGH_A, went_through(before, after, A_IN) as u64);
    counts.add(THROUGH_B, went_through(before, after, B_IN) as u64);
}

// A read of control by its number, and whether it found an INTR high or a cycle running.
fn control_read(counts: &mut Counts, number: u8, before: &View) {
    if number == 0 {
        let is_high = |half| half == Reason::High as u8;
        let was_high = of_a_and_b(&before.said)
            .iter()
            .any(|said| is_high(said.input) || is_high(said.output));
        counts.add(CONTROL_READ, 1);
        counts.add(CONTROL_READ_WHILE_HIGH, was_high as u64);
    } else if number == Refusal::NotReadable.number() {
        let runs = before.machine.phase != twins::IDLE;
        counts.add(CONTROL_REFUSED, 1);
        counts.add(CONTROL_REFUSED_IN_CYCLE, runs as u64);
    } else {
        counts.add(CONTROL_KEPT_OUT, 1);
    }
}

// Counts an event by what was shown before it and after it.
pub(super) fn count(counts: &mut Counts, event: Event, before: &View, after: &View) {
    let kind = Kind::numbered(u16::from(event.kind));
    let number = after.number;
    counts.event(event.kind);
    counts.add(NUMBERS + number as usize, 1);
    if kind == Some(Kind::BeginRead) && event.first == chip::CONTROL {
        control_read(counts, number, before);
    }
    word(counts, kind, &before.machine);
    reasons(counts, after);
    followed(counts, kind, &before.machine, &after.machine);
    counts.add_all(
        FATES,
        &twins::moved(&before.machine.tally, &after.machine.tally),
    );
}
