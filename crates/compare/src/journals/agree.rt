// Whether the two trimmers agree, in their answers and word by word.
use super::apart::Trimmed;
use super::counts::Counts;
use chip::Chip;

// What is compared: the answers, two chips after their words, or a word at a place.
#[derive(Clone, Copy, Debug, PartialEq, Eq)]
pub(crate) enum Compared {
    Answer(Answer),
    Chip(Chip),
    Word(u32),
}

// What a trimmer answers: the number, and how many words are kept.
#[derive(Clone, Copy, Debug, PartialEq, Eq)]
pub(crate) struct Answer {
    pub(super) number: u8,
    pub(super) kept: usize,
}

// What the second trimmer answered, and the words that it left.
#[derive(Clone, Copy)]
pub(super) struct Expected<'a> {
    pub(super) answer: Trimmed,
    pub(super) row: &'a [u32],
}

// Compares two chips, by what they met.
pub(super) fn hold_chips(counts: &mut Counts, one: Chip, other: Chip) {
    counts.hold(0, 0, Compared::Chip(one), Compared::Chip(other));
}

// Compares the answers and the words.
pub(super) fn hold_all(counts: &mut Counts, answer: Answer, log: &[u32], expected: &Expected) {
    let Trimmed { number, kept, .. } = expected.answer;
    counts.hold(
        0,
        0,
        Compared::Answer(answer),
        Compared::Answer(Answer { number, kept }),
    );
    for (place, (one, other)) in (0..).zip(log.iter().zip(expected.row)) {
        counts.hold(0, place, Compared::Word(*one), Compared::Word(*other));
    }
}
