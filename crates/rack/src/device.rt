//! The rack as a device on its own bus, which numbers the registers of the eight places through.
ghost use Rattle.std.specs.Prelude.{◌≡◌, ◌<◌};
ghost use Rattle.bus.specs.Answers.{after_event, byte_of};
ghost use Rattle.chip.specs.Step as card;
ghost use Rattle.rack.specs.Bases.{most_cards};
ghost use Rattle.rack.specs.Step as sheet;
ghost use Rattle.rack.specs.State.{Cards, place_of, register_of, chip_at, on_card};
ghost use Rattle.rack.specs.Views.{pins_at};

use super::{CARD_EDITION, PLACES, Rack};
use bus::devices::Device;
use bus::events::Event;
use bus::{Limits, Phase, Pins};

// The place of a number, and its register there.
pub(super) fn place_of(number: u8) -> u8
    ensures { result ≡ place_of number }
{
    number % PLACES
}

pub(super) fn register_of(number: u8) -> u8
    ensures { result ≡ register_of number }
{
    number / PLACES
}

impl Device for Rack {
    ghost Rest = { Cards };

    ghost device = { sheet.device };

    ghost shown = { pins_at };

    fn phase(&self) -> Phase {
        self.phase
    }

    // Each register of a card is there at eight places.
    fn limits(&self) -> Limits {
        let card = CARD_EDITION.limits();
        Limits {
            addresses: PLACES * card.addresses,
            readable: PLACES * card.readable,
            ports: PLACES * card.ports,
        }
    }

    fn pins(&self, number: u8) -> Pins {
        self.chip_at(place_of(number)).pins(register_of(number))
    }

    // Every place is reset, whether a card is there or not. A write that begins is put on the rack's bus alone, since no card changes by it.
    #[tactic(auto, unfolding(crate::specs::State::chip_at))]
    fn accept(&mut self, event: Event) -> u8 {
        match event {
            Event::Reset => {
                for place in 0..PLACES {
                    self.pass(place, Event::Reset);
                }
                self.phase = Phase::Idle;
            }
            Event::BeginRead(number) => {
                let byte = self.pass(place_of(number), Event::BeginRead(register_of(number)));
                self.phase = Phase::Reading(number);
                return byte;
            }
            Event::EndCycle => {
                match self.phase {
                    Phase::Idle => {}
                    Phase::Reading(number) | Phase::Writing(number, _) => {
                        self.pass(place_of(number), Event::EndCycle);
                    }
                }
                self.phase = Phase::Idle;
            }
            Event::BeginWrite(number, byte) => self.phase = Phase::Writing(number, byte),
            Event::OutsideLevels(number, levels) => {
                self.pass(
                    place_of(number),
                    Event::OutsideLevels(register_of(number), levels),
                );
            }
        }
        0
    }
}

impl Rack {
    /// What a read of the register of that number would answer; it begins none.
    pub fn answer(&self, number: u8) -> u8
        ensures { result ≡ sheet.device.answer self.now number }
    {
        self.chip_at(place_of(number)).answer(register_of(number))
    }

    // What is at a place accepts an event, as a chip alone would.
    fn pass(&mut self, place: u8, event: Event) -> u8
        requires { place < most_cards }
        ensures byte { result ≡ byte_of card.device event (chip_at self.old place) }
        ensures state { self.new ≡ on_card self.old place (after_event card.device event) }
    {
        let mut card = self.chip_at(place);
        let byte = card.accept(event);
        self.cores[place as usize] = card.core;
        byte
    }
}
