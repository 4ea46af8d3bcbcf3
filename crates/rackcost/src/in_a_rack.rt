//! The rounds on the last card of a rack of eight.
use super::round::{self, Answering, Handed};
use bus::events::Event;
use rack::Rack;
use rack::events::RackEvent;

const LAST_BASE: u16 = 0x738;

const LAST_PLACE: u8 = 7;

// The event of a chip as one of the card: its operands are an address in the rack, or the card's place and a port.
fn of_card(event: Event) -> RackEvent {
    match event {
        Event::Reset => RackEvent::Reset,
        Event::BeginRead(register) => RackEvent::BeginRead(LAST_BASE + register as u16),
        Event::EndCycle => RackEvent::EndCycle,
        Event::BeginWrite(register, byte) => {
            RackEvent::BeginWrite(LAST_BASE + register as u16, byte)
        }
        Event::OutsideLevels(port, levels) => {
            RackEvent::OutsideLevels(LAST_PLACE as u16, port, levels)
        }
    }
}

// An event stays a call of its own, as programs have it.
#[inline(never)]
fn happen(rack: &mut Rack, event: RackEvent) {
    let _ = rack.step(event);
}

impl Answering for Rack {
    fn answer(&mut self, event: Event) {
        happen(self, of_card(event));
    }
}

pub(super) fn rounds(count: usize) -> Option<Handed> {
    let mut rack = Rack::new(&[0x700, 0x708, 0x710, 0x718, 0x720, 0x728, 0x730, LAST_BASE]).ok()?;
    round::rounds(&mut rack, count);
    let card = rack.card(LAST_PLACE).ok()?;
    Some(Handed::by(&card))
}
