// The journals that are drawn: their power-ups, their lengths and their words, of which one may be damaged.
use super::super::random;
use super::super::random::byte;
use super::agree::Answer;
use super::counts::Counts;
use super::words::Drawing;
use super::{counts, words};
use chip::Levels;
use std::alloc::{AllocError, Global};

// So many words a journal may have. Said again here: the constant of journal is private, and the second trimmer shares none with the program.
pub(super) const LONGEST: usize = 8192;

// A journal's power-up: an edition by its number, since there may be none of that number, and the levels of the three ports.
#[derive(Clone, Copy)]
pub(super) struct Case {
    pub(super) edition: u8,
    pub(super) levels: Levels,
}

impl Case {
    // Trims a log by the proved trimmer, as C calls it.
    pub(super) fn trim(&self, log: &mut [u32]) -> Answer {
        let levels = self.levels;
        let packed = journal::towanchor_trim(log, self.edition, levels.a, levels.b, levels.c);
        Answer {
            number: (packed % 256) as u8,
            kept: (packed / 256) as usize,
        }
    }
}

// In one of eight an edition that there is not; in one of four every line is high.
fn power_up(number: u64) -> Case {
    let any = byte(number);
    let edition = if (number >> 40) % 8 == 0 {
        2 + any % 254
    } else {
        any % 2
    };
    let high = if (number >> 32) % 4 == 0 { 0xff } else { 0 };
    Case {
        edition,
        levels: Levels {
            a: byte(number >> 8) | high,
            b: byte(number >> 16) | high,
            c: byte(number >> 24) | high,
        },
    }
}

// Mostly up to a few hundred words; now and then as many as there may be, or one more.
fn length(number: u64) -> usize {
    match (number >> 43) % 256 {
        0 => LONGEST,
        1..=4 => LONGEST + 1,
        _ => ((number >> 51) % 300) as usize,
    }
}

// Makes a word no frame in one of four journals, if one stands at the place that is drawn, and tells whether it did.
fn damage(counts: &mut Counts, journal: &mut [u32], number: u64) -> bool {
    if number % 4 != 0 {
        return false;
    }
    let place = (number >> 16) % (journal.len() as u64 + 1);
    let Some(word) = journal.get_mut(place as usize) else {
        return false;
    };
    let way = byte(number >> 8) % words::WAYS;
    *word = words::damaged(*word, way, random::next(number));
    counts.add(counts::WAYS + way as usize, 1);
    true
}

// A journal that was drawn: whether it has a word that is no frame, and the last number.
#[derive(Drop)]
pub(super) struct Drawn {
    pub(super) case: Case,
    pub(super) journal: Vec<u32>,
    pub(super) damaged: bool,
    pub(super) number: u64,
}

pub(super) fn draw(counts: &mut Counts, alloc: Global, seed: u64) -> Result<Drawn, AllocError> {
    let far = random::far(seed);
    let case = power_up(far);
    let mut journal = Vec::new(alloc);
    let mut drawing = Drawing::new(seed, case.levels);
    for _ in 0..length(far) {
        journal.push(drawing.next())?;
    }
    let number = random::next(drawing.number);
    let damaged = damage(counts, &mut journal, number);
    Ok(Drawn {
        case,
        journal,
        damaged,
        number,
    })
}
