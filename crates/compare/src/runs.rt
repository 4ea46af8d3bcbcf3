// The three runs, of both editions: long histories from a power-up with every line high; short ones from arbitrary states, where a mode word or
// a reset soon ends what is strange; and short ones from power-ups under other levels.
use super::counts::Counts;
use super::random::{byte, far};
use super::row::of_histories;
use super::{apart, history, states, twins};
use chip::{Chip, Levels};

// A history from a power-up under these levels, of the edition that the seed decides.
fn powered(counts: &mut Counts, levels: Levels, seed: u64, length: u64) -> u64 {
    let part = byte(seed >> 56) % 2;
    let chip = Chip::new(states::edition(seed >> 56), levels);
    let machine = apart::power_up_of(part, levels.a, levels.b, levels.c);
    history::run(counts, chip, machine, seed, length)
}

fn all_high(counts: &mut Counts, seed: u64) -> u64 {
    powered(counts, Levels::HIGH, seed, 300)
}

// From the default power-up, or from one with levels of the seed, as the seed decides.
fn other_levels(counts: &mut Counts, seed: u64) -> u64 {
    if seed % 2 == 0 {
        return history::run(counts, Chip::default(), apart::power_up(), far(seed), 30);
    }
    let levels = Levels {
        a: byte(seed >> 8),
        b: byte(seed >> 16),
        c: byte(seed >> 24),
    };
    powered(counts, levels, far(seed), 30)
}

fn anywhere(counts: &mut Counts, seed: u64) -> u64 {
    let chip = states::arbitrary(seed);
    history::run(counts, chip, twins::machine(&chip), far(seed), 30)
}

pub(super) fn from_power_up() -> Counts {
    of_histories(0x8255825582558255, 2000, all_high)
}

pub(super) fn from_arbitrary_states() -> Counts {
    of_histories(0x5582558255825582, 20000, anywhere)
}

pub(super) fn from_other_levels() -> Counts {
    of_histories(0x2558255825582558, 4000, other_levels)
}
