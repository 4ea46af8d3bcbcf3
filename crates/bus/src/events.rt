//! Events, and those that scripts and C name by a kind and two operands.
ghost use Rattle.std.specs.Prelude.{◌≡◌};
ghost use Rattle.bus.specs.Answers.{event_numbered};

use crate::kinds::Kind;

/// An event on the bus of a device: a beginning names an address, and of a write the byte; outside levels name a port.
#[derive(Clone, Copy, Debug, PartialEq, Eq)]
pub enum Event {
    Reset,
    BeginRead(u8),
    EndCycle,
    BeginWrite(u8, u8),
    OutsideLevels(u8, u8),
}

impl Event {
    /// The event of a kind, by its operands, of which those that the kind lacks are ignored; `None` where there is no such kind.
    // An `Option` for the reason that `Kind::numbered` has.
    pub fn numbered(kind: u8, first: u8, second: u8) -> Option<Event>
        ensures { result ≡ event_numbered kind first second }
    {
        Some(match Kind::numbered(u16::from(kind))? {
            Kind::Reset => Event::Reset,
            Kind::BeginRead => Event::BeginRead(first),
            Kind::EndCycle => Event::EndCycle,
            Kind::BeginWrite => Event::BeginWrite(first, second),
            Kind::OutsideLevels => Event::OutsideLevels(first, second),
        })
    }
}
