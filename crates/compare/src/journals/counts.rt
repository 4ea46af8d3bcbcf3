// What the journals were made of and what became of their words, in one row of counts:
//
//     0 journals, 1 words, 2 and 3 journals of an 8255A and of an 82C55A; 4 to 6 journals without a word, of 8,192 and of 8,193
//     7 to 10 by number: 0, 1, 6 and 8; 11 to 14 those of them with a word that is no frame, 15 to 18 those of 8,193 words
//     19 to 26 words that are no frames, by the way in which they are none
//     27 to 31 words that were kept, by kind, 32 levels among them that were there already; 33 to 38 the same of words that were dropped, 39
//     those of them that the chip accepted
//     40 to 46 what became of bytes, all four channels together, in the order of the tallies
//     47 words that were trimmed again, 48 words with which a trimmed journal was gone on; 49 differences
use super::super::row::{Row, order};
use super::super::twins::{PER_CHANNEL, Tallies};
use super::agree::{Compared, Expected};
use super::cases::{Drawn, LONGEST};
use super::words;
use journal::TrimRefusal;

pub(super) type Counts = Row<Compared, 50>;

const EDITIONS: usize = 2;

const WITHOUT_A_WORD: usize = 4;

const OF_THE_LONGEST: usize = 5;

const OF_ONE_MORE: usize = 6;

const NUMBERS: usize = 7;

const DAMAGED: usize = 11;

const TOO_LONG: usize = 15;

pub(super) const WAYS: usize = 19;

const KEPT: usize = 27;

const DROPPED: usize = 33;

// Behind the kinds: levels that were there already.
const REPEATED: usize = 5;

const IDLE: usize = 39;

const FATES: usize = 40;

const AGAIN: usize = 47;

const GONE_ON: usize = 48;

// The numbers with which a journal is answered, in the order of their counts.
const ANSWERS: [u8; 4] = [
    0,
    TrimRefusal::NoFrame as u8,
    TrimRefusal::TooLong as u8,
    TrimRefusal::NoEdition as u8,
];

// A journal by the number with which it is answered, if there is such a number.
fn answered(counts: &mut Counts, drawn: &Drawn, number: u8) {
    let Some(behind) = ANSWERS.iter().position(|answer| *answer == number) else {
        return;
    };
    let too_long = drawn.journal.len() > LONGEST;
    counts.add(NUMBERS + behind, 1);
    counts.add(DAMAGED + behind, drawn.damaged as u64);
    counts.add(TOO_LONG + behind, too_long as u64);
}

pub(super) fn journal(counts: &mut Counts, drawn: &Drawn, number: u8) {
    let length = drawn.journal.len();
    let edition = drawn.case.edition;
    counts.history();
    counts.add(1, length as u64);
    if edition < 2 {
        counts.add(EDITIONS + edition as usize, 1);
    }
    match length {
        0 => counts.add(WITHOUT_A_WORD, 1),
        LONGEST => counts.add(OF_THE_LONGEST, 1),
        _ if length > LONGEST => counts.add(OF_ONE_MORE, 1),
        _ => {}
    }
    answered(counts, drawn, number);
}

// What became of each word of a journal that was trimmed. A word that is equal to the next kept one is that one: had it been dropped, its equal
// would have met the same state and been dropped too.
pub(super) fn census(counts: &mut Counts, drawn: &Drawn, expected: &Expected) {
    let mut levels = drawn.case.levels;
    let mut kept = expected.row.iter().take(expected.answer.kept).peekable();
    for word in &drawn.journal {
        let first = match kept.next_if_eq(&word) {
            Some(_) => KEPT,
            None => DROPPED,
        };
        let [_, kind, port, _] = word.to_be_bytes();
        let repeated = words::repeated(&levels, port);
        counts.add(first + order(kind), 1);
        counts.add(first + REPEATED, (*word == repeated) as u64);
        words::follow(&mut levels, *word);
    }
    counts.add(IDLE, expected.answer.idle);
}

// How many words were trimmed again, with how many the journal was gone on, and what became of the bytes that the chip met.
pub(super) fn gone_on(counts: &mut Counts, again: usize, new: usize, tallies: Tallies) {
    counts.add(AGAIN, again as u64);
    counts.add(GONE_ON, new as u64);
    for channel in tallies.chunks(PER_CHANNEL) {
        counts.add_all(FATES, channel);
    }
}
