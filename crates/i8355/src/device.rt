//! What each event on the bus does to the ports, and what they show.
ghost use Rattle.std.specs.Prelude.{◌≡◌};
ghost use Rattle.i8355.specs.Registers.{after_reset, after_write_ends, after_levels};
ghost use Rattle.i8355.specs.Views.{pins_of_port, pins_of, read_of};
ghost use Rattle.i8355.specs.Step as sheet;
ghost use Rattle.i8355.specs.declared.Ports.{Ports};

use crate::{Chip8355, DIRECTION_A, DIRECTION_B, PORT_A, PORT_B, Port, Ports};
use bus::devices::Device;
use bus::events::Event;
use bus::{Limits, Phase, Pins};

impl Port {
    // An output pin shows its bit of the latch, an input pin the level outside.
    #[tactic(auto, unfolding(crate::specs::Views::shown_by))]
    fn pins(&self) -> Pins
        ensures { result ≡ pins_of_port self.now }
    {
        Pins {
            levels: bits::blend(self.direction, self.latch, self.outside),
            driven: self.direction,
        }
    }
}

impl Ports {
    // All pins become inputs, and nothing else changes.
    #[tactic(auto, unfolding(crate::specs::Registers::after_reset))]
    fn reset(&mut self)
        ensures { self.new ≡ after_reset self.old }
    {
        self.a.direction = 0;
        self.b.direction = 0;
    }

    // The register at the address takes the whole byte; a latch takes the bits of input pins too.
    #[tactic(auto, unfolding(crate::specs::Registers::after_write_ends))]
    fn write(&mut self, address: u8, byte: u8)
        ensures { self.new ≡ after_write_ends self.old address byte }
    {
        match address {
            PORT_A => self.a.latch = byte,
            PORT_B => self.b.latch = byte,
            DIRECTION_A => self.a.direction = byte,
            DIRECTION_B => self.b.direction = byte,
            _ => {}
        }
    }

    #[tactic(auto, unfolding(crate::specs::Registers::after_levels))]
    fn put_levels(&mut self, port: u8, levels: u8)
        ensures { self.new ≡ after_levels self.old port levels }
    {
        match port {
            PORT_A => self.a.outside = levels,
            PORT_B => self.b.outside = levels,
            _ => {}
        }
    }
}

#[tactic(auto, unfolding(crate::specs::Views::pins_of))]
impl Device for Chip8355 {
    ghost Rest = { Ports };

    ghost device = { sheet.device };

    ghost shown = { pins_of };

    fn phase(&self) -> Phase {
        self.phase
    }

    // Of the four registers only the ports can be read, and have levels outside.
    fn limits(&self) -> Limits {
        Limits {
            addresses: 4,
            readable: 2,
            ports: 2,
        }
    }

    fn pins(&self, port: u8) -> Pins {
        match port {
            PORT_A => self.ports.a.pins(),
            PORT_B => self.ports.b.pins(),
            _ => Pins::default(),
        }
    }

    // The byte of a write goes to its register as the write ends; the end of a read does nothing more.
    fn accept(&mut self, event: Event) -> u8 {
        match event {
            Event::Reset => {
                self.ports.reset();
                self.phase = Phase::Idle;
            }
            Event::BeginRead(address) => {
                self.phase = Phase::Reading(address);
                return self.answer(address);
            }
            Event::EndCycle => {
                if let Phase::Writing(address, byte) = self.phase {
                    self.ports.write(address, byte);
                }
                self.phase = Phase::Idle;
            }
            Event::BeginWrite(address, byte) => self.phase = Phase::Writing(address, byte),
            Event::OutsideLevels(port, levels) => self.ports.put_levels(port, levels),
        }
        0
    }
}

impl Chip8355 {
    /// What a read at the address would answer; it begins none. A read sees the pins of the port, those of outputs too.
    pub fn answer(&self, address: u8) -> u8
        ensures { result ≡ read_of self.now address }
    {
        self.pins(address).levels
    }
}
