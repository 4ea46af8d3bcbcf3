//! One event of the rack: it is for one card, or for every card, and then one of the rack as a device.
ghost use Rattle.std.specs.Prelude.{◌≡◌, ◌<◌, min};
ghost use Rattle.bus.specs.Answers.{frame_number, given_by};
ghost use Rattle.rack.specs.Bases.{most_cards};
ghost use Rattle.rack.specs.State.{number_at};
ghost use Rattle.rack.specs.Step.{step_of};
ghost use Rattle.rack.specs.Answers.{given_on_bus, refusal_number, stepped};

use super::events::RackEvent;
use super::refusals::RackRefusal;
use super::{PLACES, Rack};
use bus::devices;
use bus::events::Event;
use bus::refusals::FrameRefusal;
use chip::CONTROL;

// A register's or a port's number on the bus of the rack. There is no port at control or above, and so one number, which is a byte, stands for
// all of these.
fn number(place: u8, register: u8) -> u8
    requires { place < most_cards }
    ensures { result ≡ number_at place (min register 3) }
{
    PLACES * register.min(CONTROL) + place
}

impl Rack {
    // The event on the bus of the rack; nothing where it is for no card.
    #[tactic(auto, using(crate::proofs::Named::placed), unfolding(crate::specs::Targets::target_at))]
    fn placed(&self, event: RackEvent) -> Option<Event>
        ensures { given_on_bus self.now result ≡ stepped self.now event }
    {
        match event {
            RackEvent::Reset => Some(Event::Reset),
            RackEvent::BeginRead(address) => {
                let (place, register) = self.at_address(address)?;
                Some(Event::BeginRead(number(place, register)))
            }
            RackEvent::EndCycle => Some(Event::EndCycle),
            RackEvent::BeginWrite(address, byte) => {
                let (place, register) = self.at_address(address)?;
                Some(Event::BeginWrite(number(place, register), byte))
            }
            RackEvent::OutsideLevels(place, port, levels) => {
                let (place, port) = self.at_place(place, port)?;
                Some(Event::OutsideLevels(number(place, port), levels))
            }
        }
    }

    /// One event: the byte of a read, and 00 of any other event; or why it is refused, and then the rack is as it was.
    pub fn step(&mut self, event: RackEvent) -> Result<u8, RackRefusal>
        ensures { given_by refusal_number self.new result ≡ stepped self.old event }
    {
        let event = self.placed(event).ok_or(RackRefusal::NoCard)?;
        Ok(devices::step(self, event)?)
    }

    /// The same of an event by its numbers, as scripts and C have it.
    #[tactic(auto, using(crate::proofs::Named::by_numbers))]
    pub fn step_numbers(
        &mut self,
        kind: u8,
        first: u16,
        second: u8,
        third: u8,
    ) -> Result<u8, FrameRefusal<RackRefusal>>
        ensures { given_by (frame_number refusal_number) self.new result ≡ step_of self.old kind first second third }
    {
        match RackEvent::numbered(kind, first, second, third) {
            Some(event) => Ok(self.step(event)?),
            None => Err(FrameRefusal::NoSuchKind),
        }
    }
}
