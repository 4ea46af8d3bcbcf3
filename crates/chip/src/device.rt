//! The chip as a device on the bus: its limits, what it shows, and what an accepted event makes of it.
ghost use Rattle.std.specs.Prelude.{◌≡◌};
ghost use Rattle.chip.specs.Step as sheet;
ghost use Rattle.chip.specs.Pins.{pins_of};
ghost use Rattle.chip.specs.Reads.{read_of};

use super::{Chip, Edition, accept, pins};
use bus::devices::Device;
use bus::events::Event;
use bus::{Limits, Phase, Pins};

impl Edition {
    /// How far the addresses and ports of a chip of this edition reach. Control has no levels, and only the newer edition reads it.
    pub fn limits(self) -> Limits
        ensures { result ≡ sheet.limits self }
    {
        Limits {
            addresses: 4,
            readable: match self {
                Edition::Older => 3,
                Edition::Newer => 4,
            },
            ports: 3,
        }
    }
}

impl Device for Chip {
    ghost Rest = { sheet.Rest };

    ghost device = { sheet.device };

    ghost shown = { pins_of };

    fn phase(&self) -> Phase {
        self.phase
    }

    fn limits(&self) -> Limits {
        self.edition.limits()
    }

    fn pins(&self, port: u8) -> Pins {
        pins::pins(self, port)
    }

    #[tactic(auto, using(crate::proofs::Held::begins_any))]
    fn accept(&mut self, event: Event) -> u8 {
        accept::accept(self, event)
    }
}

impl Chip {
    /// What a read at the address would answer; it begins none. It is asked whether or not the read would be accepted.
    pub fn answer(&self, address: u8) -> u8
        ensures { result ≡ read_of self.now address }
    {
        pins::read(self, address)
    }
}
