// The two runs of the 8355: long histories from power-up, and short ones from arbitrary states,
// where a reset or one end soon ends a strange cycle.
mod apart; // the second model
mod counts;
mod draws;
mod history;
mod states;
mod views;

use super::random;
use super::row::of_histories;
use counts::Counts;
use i8355::Chip8355;

fn powered(counts: &mut Counts, seed: u64) -> u64 {
    history::run(counts, Chip8355::new(), apart::power_up(), seed, 100)
}

fn anywhere(counts: &mut Counts, seed: u64) -> u64 {
    let chip = states::arbitrary(seed);
    history::run(counts, chip, states::twin(&chip), random::far(seed), 20)
}

pub(super) fn from_power_up() -> Counts {
    of_histories(0x8355835583558355, 2000, powered)
}

pub(super) fn from_arbitrary_states() -> Counts {
    of_histories(0x5583558355835583, 10000, anywhere)
}
