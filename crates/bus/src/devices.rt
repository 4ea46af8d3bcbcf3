//! What a device on the bus is, and one event on any of them.
ghost use Rattle.std.specs.Prelude.{◌≡◌, ℕ};
ghost use Rattle.bus.specs.Device as rules;
ghost use Rattle.bus.specs.Device.{step_in};
ghost use Rattle.bus.specs.Facts.{Facts};
ghost use Rattle.bus.specs.Answers.{after_event, byte_of, given_for, given_by, refusal_number, frame_number};
ghost use Rattle.bus.specs.declared.Pins.{Pins};

use crate::events::Event;
use crate::refusals::{FrameRefusal, Refusal, judge};
use crate::{Limits, Phase, Pins};

/// A device on the bus: what runs there, how far it reaches, what it shows, and what an accepted event makes of it. What a read would answer though
/// none begins is asked of each device by a method of its own, since no step asks it.
pub trait Device {
    /// All of the device but what runs on the bus.
    ghost Rest: { Type 0 };

    /// The device in the words of its data sheet: what each event makes of it, and what a read answers.
    ghost device: { rules.Device Self Rest };

    /// What it shows on the pins of each port.
    ghost shown: { Self → ℕ → Pins };

    /// What runs on the bus.
    fn phase(&self) -> Phase
        ensures { result ≡ device.phase self.now };

    /// How far its addresses and ports reach.
    fn limits(&self) -> Limits
        ensures { result ≡ device.limits (device.rest self.now) };

    /// The pins of a port. Of a number that is no port the levels are 00, and none is driven.
    fn pins(&self, port: u8) -> Pins
        ensures { result ≡ shown self.now port };

    /// What an accepted event makes of the device. The byte of a read is given back, and of any other event 00. Whether the event is
    /// accepted is asked before, in `step`.
    fn accept(&mut self, event: Event) -> u8
        ensures state { self.new ≡ after_event device event self.old }
        ensures byte { result ≡ byte_of device event self.old };
}

/// One event: the byte of a read, and 00 of any other event; or why it is refused, and then the device is as it was.
#[tactic(auto, unfolding(crate::specs::Device::step_in))]
pub fn step<D: Device>(device: &mut D, event: Event) -> Result<u8, Refusal>
    ensures { given_by refusal_number device.new result ≡ given_for D.device device.old event }
{
    judge(device.limits(), device.phase(), event)?;
    Ok(device.accept(event))
}

/// The same of an event by its numbers, as scripts and C have it.
#[tactic(auto, using(crate::proofs::Named::by_numbers))]
pub fn step_numbers<D: Device>(
    device: &mut D,
    kind: u8,
    first: u8,
    second: u8,
) -> Result<u8, FrameRefusal<Refusal>>
    ensures { given_by (frame_number refusal_number) device.new result ≡ step_in D.device device.old kind first second }
{
    match Event::numbered(kind, first, second) {
        Some(event) => Ok(step(device, event)?),
        None => Err(FrameRefusal::NoSuchKind),
    }
}

/// The facts about cycles hold of every device in every state: the number of an event is that of the first row of the table of refusals
/// that applies, a refusal changes nothing, places and the running cycle decide what is accepted, and after any history the phase follows
/// from the events alone.
// A function, so that the theorem is a contract, and is read with the others.
pub fn facts_about_cycles<D: Device>()
    ensures { (s : D) → Facts D.device (D.device.limits (D.device.rest s)) s }
{}
