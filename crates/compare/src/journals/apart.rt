// The second trimmer of journals, written apart from the proved one, to be held against it. It knows a frame by its shape, has a chip of the
// second model meet the words, and enters those that change it in a second row. It uses nothing but that model. Numbers
// stand where the proved crates have enums and results, since a form that both had could hide a fault of both.
use super::super::apart;
use super::super::apart::Machine;

// A journal with more words than this is refused.
const MOST_WORDS: usize = 8192;

// The numbers of a refusal.
const NO_FRAME: u8 = 1;

const TOO_MANY: u8 = 6;

const NO_SUCH_PART: u8 = 8;

// What a journal is answered: the number, and how many words are kept; and how many are dropped though the chip accepts them.
#[derive(Clone, Copy)]
pub(super) struct Trimmed {
    pub(super) number: u8,
    pub(super) kept: usize,
    pub(super) idle: u64,
}

// The five shapes of a frame: 00000000, 0001aa00, 00020000, 0003aadd and 0005ppdd.
fn is_shaped(word: &u32) -> bool {
    match *word {
        0 | 0x20000 => true,
        0x10000..=0x1ffff => word % 0x100 == 0,
        0x30000..=0x3ffff | 0x50000..=0x5ffff => true,
        _ => false,
    }
}

// Of several numbers that apply the last one here counts.
fn refusal(journal: &[u32], part: u8) -> u8 {
    let mut number = 0;
    if !journal.iter().all(is_shaped) {
        number = NO_FRAME;
    }
    if journal.len() > MOST_WORDS {
        number = TOO_MANY;
    }
    if part > 1 {
        number = NO_SUCH_PART;
    }
    number
}

// Every word in turn; one that is kept goes to the first place that is free.
fn sift(row: &mut [u32], journal: &[u32], start: Machine) -> Trimmed {
    let mut machine = start;
    let mut kept = 0usize;
    let mut idle = 0u64;
    for word in journal {
        let answer = apart::event(
            machine,
            (word / 0x10000 % 0x100) as u8,
            (word / 0x100 % 0x100) as u8,
            (word % 0x100) as u8,
        );
        if machine != answer.machine {
            if let Some(free) = row.get_mut(kept) {
                *free = *word;
            }
            kept = kept.wrapping_add(1);
        } else if answer.number == 0 {
            idle = idle.wrapping_add(1);
        }
        machine = answer.machine;
    }
    Trimmed {
        number: 0,
        kept,
        idle,
    }
}

// Makes of a row, in which a journal stands, what the journal becomes from a power-up of that part under these levels: zero words behind
// those that are kept; and leaves it where the journal is refused.
pub(super) fn trim(row: &mut [u32], journal: &[u32], part: u8, a: u8, b: u8, c: u8) -> Trimmed {
    let number = refusal(journal, part);
    if number != 0 {
        return Trimmed {
            number,
            kept: 0,
            idle: 0,
        };
    }
    row.fill(0);
    sift(row, journal, apart::power_up_of(part, a, b, c))
}
