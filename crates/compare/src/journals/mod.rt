// Journals that the proved trimmer and a second one trim from the same power-ups: what both answer and leave is compared word by word; what
// was kept is trimmed again; and a journal that was trimmed on the way is gone on with.
mod agree;
mod apart; // the second trimmer
mod cases; // the journals that are drawn
mod counts;
mod going_on;
mod words;

use agree::Expected;
use cases::Drawn;
use counts::Counts;
use std::alloc::{AllocError, Global};

// A journal by the proved trimmer; and what was kept once more, all of which is kept.
fn hold(
    counts: &mut Counts,
    alloc: Global,
    drawn: &Drawn,
    expected: &Expected,
) -> Result<(), AllocError> {
    let mut log = drawn.journal.to_vec(alloc)?;
    let answer = drawn.case.trim(&mut log);
    agree::hold_all(counts, answer, &log, expected);
    if expected.answer.number == 0 {
        log.truncate(expected.answer.kept);
        let again = drawn.case.trim(&mut log);
        agree::hold_all(counts, again, &log, expected);
    }
    Ok(())
}

// One journal, and the seed of the next one.
fn one(counts: &mut Counts, alloc: Global, seed: u64) -> Result<u64, AllocError> {
    let drawn = cases::draw(counts, alloc, seed)?;
    let case = drawn.case;
    let levels = case.levels;
    let mut row = drawn.journal.to_vec(alloc)?;
    let answer = apart::trim(
        &mut row,
        &drawn.journal,
        case.edition,
        levels.a,
        levels.b,
        levels.c,
    );
    let expected = Expected { answer, row: &row };
    counts::journal(counts, &drawn, answer.number);
    hold(counts, alloc, &drawn, &expected)?;
    if answer.number == 0 {
        counts::census(counts, &drawn, &expected);
        going_on::hold(counts, alloc, &drawn, &expected)?;
    }
    Ok(drawn.number)
}

const JOURNALS: usize = 3000;

pub(super) fn from_any_power_up(alloc: Global) -> Result<Counts, AllocError> {
    let mut counts = Counts::default();
    let mut seed = 0x8192819281928192;
    for _ in 0..JOURNALS {
        seed = one(&mut counts, alloc, seed)?;
    }
    Ok(counts)
}
