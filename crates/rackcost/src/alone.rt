//! The rounds on a chip alone.
use super::round::{self, Answering, Handed};
use bus::devices;
use bus::events::Event;
use chip::Chip;

impl Answering for Chip {
    // An event stays a call of its own, as programs have it.
    #[inline(never)]
    fn answer(&mut self, event: Event) {
        let _ = devices::step(self, event);
    }
}

pub(super) fn rounds(count: usize) -> Handed {
    let mut chip = Chip::default();
    round::rounds(&mut chip, count);
    Handed::by(&chip)
}
