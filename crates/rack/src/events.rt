//! Events of a rack, and those that scripts and C name by a kind and three operands.
ghost use Rattle.std.specs.Prelude.{◌≡◌};
ghost use Rattle.rack.specs.Answers.{event_numbered};

use bus::kinds::Kind;

/// An event of a rack. It has a type of its own, since an address of a rack is wider than a device's, and levels name a place besides. A
/// beginning names an address, and of a write the byte; outside levels name a place and a port.
#[derive(Clone, Copy, Debug, PartialEq, Eq)]
pub enum RackEvent {
    Reset,
    BeginRead(u16),
    EndCycle,
    BeginWrite(u16, u8),
    OutsideLevels(u16, u8, u8),
}

impl RackEvent {
    /// The event of a kind, by its operands, of which those that the kind lacks are ignored; `None` where there is no such kind.
    pub fn numbered(kind: u8, first: u16, second: u8, third: u8) -> Option<RackEvent>
        ensures { result ≡ event_numbered kind first second third }
    {
        Some(match Kind::numbered(u16::from(kind))? {
            Kind::Reset => RackEvent::Reset,
            Kind::BeginRead => RackEvent::BeginRead(first),
            Kind::EndCycle => RackEvent::EndCycle,
            Kind::BeginWrite => RackEvent::BeginWrite(first, second),
            Kind::OutsideLevels => RackEvent::OutsideLevels(first, second, third),
        })
    }
}
