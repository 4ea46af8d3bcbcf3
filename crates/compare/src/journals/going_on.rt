// Journals that are gone on with after they were trimmed: a chip that met what was kept, and then new words, is in the state of one that met
// all words, and trimmed once more, the journal is what it would have been without the first trimming.
use super::super::twins::Tallies;
use super::super::{states, twins};
use super::agree::Expected;
use super::cases::{Case, Drawn};
use super::counts::Counts;
use super::{agree, counts};
use bus::devices::step_numbers;
use chip::Chip;
use std::alloc::{AllocError, Global};

// A word happens to the chip. One that is refused leaves it as it was.
fn meet(chip: &mut Chip, word: u32) {
    let [_, kind, first, second] = word.to_be_bytes();
    let _ = step_numbers(chip, kind, first, second);
}

// The proved chip after the words of a log.
fn replayed(log: &[u32], case: Case) -> Chip {
    let mut chip = Chip::new(states::edition(case.edition as u64), case.levels);
    for word in log {
        meet(&mut chip, *word);
    }
    chip
}

// Compares two chips, one after the words of a journal and one after what these were trimmed to. Gives the tallies of the first.
fn hold_chips(counts: &mut Counts, journal: &[u32], log: &[u32], case: Case) -> Tallies {
    let chip = replayed(journal, case);
    agree::hold_chips(counts, chip, replayed(log, case));
    twins::tallies(&chip)
}

// A journal is trimmed when it has come to a place that is drawn, and the words behind that are logged then.
pub(super) fn hold(
    counts: &mut Counts,
    alloc: Global,
    drawn: &Drawn,
    expected: &Expected,
) -> Result<(), AllocError> {
    let case = drawn.case;
    let journal = drawn.journal.as_slice();
    let place = (drawn.number >> 24) % (journal.len() as u64 + 1);
    let (front, new) = journal.split_at(place as usize);
    let mut log = front.to_vec(alloc)?;
    let trimmed = case.trim(&mut log);
    log.truncate(trimmed.kept);
    hold_chips(counts, front, &log, case);
    log.extend_from_slice(new)?;
    let tallies = hold_chips(counts, journal, &log, case);
    let answer = case.trim(&mut log);
    agree::hold_all(counts, answer, &log, expected);
    counts::gone_on(counts, expected.answer.kept, new.len(), tallies);
    Ok(())
}
