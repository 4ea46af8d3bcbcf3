//! The rounds: their events, who answers them, and what is told after all of them.
use bus::events::Event;
use chip::channel::Side;
use chip::{CONTROL, Chip, PORT_A, PORT_B, PORT_C};
use control::Group;

/// How many bytes were handed over: from the scale on port A, and to the printer on port B.
#[derive(Clone, Copy)]
pub(super) struct Handed {
    pub(super) digits: u16,
    pub(super) signs: u16,
}

impl Handed {
    pub(super) fn by(chip: &Chip) -> Self {
        Handed {
            digits: chip.tally(Group::A, Side::Input).handed,
            signs: chip.tally(Group::B, Side::Output).handed,
        }
    }
}

static EVENTS: [Event; 11] = [
    // Levels on A, STB falls and rises, a read of A.
    Event::OutsideLevels(PORT_A, 0x41),
    Event::OutsideLevels(PORT_C, 0xef),
    Event::OutsideLevels(PORT_C, 0xff),
    Event::BeginRead(PORT_A),
    Event::EndCycle,
    // A write to B, ACK falls and rises, a read of C.
    Event::BeginWrite(PORT_B, 0x54),
    Event::EndCycle,
    Event::OutsideLevels(PORT_C, 0xfb),
    Event::OutsideLevels(PORT_C, 0xff),
    Event::BeginRead(PORT_C),
    Event::EndCycle,
];

// The lines are high, and A takes bytes by STB, and B gives them by ACK.
static START: [Event; 3] = [
    Event::OutsideLevels(PORT_C, 0xff),
    Event::BeginWrite(CONTROL, 0xb4),
    Event::EndCycle,
];

/// Whoever answers the events of the rounds.
pub(super) trait Answering {
    fn answer(&mut self, event: Event);
}

pub(super) fn rounds(subject: &mut impl Answering, count: usize) {
    for event in &START {
        subject.answer(*event);
    }
    for _ in 0..count {
        for event in &EVENTS {
            subject.answer(*event);
        }
    }
}
