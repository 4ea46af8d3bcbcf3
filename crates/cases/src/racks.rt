// The rack that the cases are at, the place that is looked at, and what a sign does to them.
use super::answers::Fields;
use super::{letters, show};
use bus::refusals::{FrameRefusal, Numbered};
use chip::Chip;
use control::Group;
use rack::Rack;
use rack::refusals::{BadRack, RackRefusal};
use std::alloc::{AllocError, Global};
use std::io;

// Why there is no rack of the bases, or why it refuses the event.
#[derive(Clone, Copy)]
enum Refused {
    Building(BadRack),
    Event(FrameRefusal<RackRefusal>),
}

// It is not `Numbered`: nothing is proved of it here.
impl Refused {
    fn number(self) -> u8 {
        match self {
            Refused::Building(refusal) => refusal.number(),
            Refused::Event(refusal) => refusal.number(),
        }
    }
}

// A rack with the answer to its last event or to its building; the place that is looked at; and the bases of the next rack so far.
#[derive(Drop)]
pub(super) struct Held {
    rack: Rack,
    answer: Result<u8, Refused>,
    place: u8,
    bases: Vec<u16>,
}

impl Held {
    // A rack of none.
    pub(super) fn new(alloc: Global) -> Self {
        Held {
            rack: Rack::default(),
            answer: Ok(0),
            place: 0,
            bases: Vec::new(alloc),
        }
    }

    // Where the bases make no rack, it is one of none.
    fn build(&mut self) {
        (self.rack, self.answer) = match Rack::new(&self.bases) {
            Ok(rack) => (rack, Ok(0)),
            Err(refusal) => (Rack::default(), Err(Refused::Building(refusal))),
        };
        self.bases.clear();
    }

    pub(super) fn event(&mut self, digits: u64) {
        let [_, _, _, kind, high, low, second, third] = digits.to_be_bytes();
        let first = u16::from_be_bytes([high, low]);
        let answer = self.rack.step_numbers(kind, first, second, third);
        self.answer = answer.map_err(Refused::Event);
    }

    // A base ends with a comma, and the bases with the bracket.
    pub(super) fn base(&mut self, digits: u64, code: u8) -> Result<(), AllocError> {
        match code {
            b',' => {
                let [_, _, _, _, _, _, high, low] = digits.to_be_bytes();
                self.bases.push(u16::from_be_bytes([high, low]))?;
            }
            b']' => self.build(),
            _ => {}
        }
        Ok(())
    }

    // Looks at the place of a digit.
    pub(super) fn look_at(&mut self, code: u8) {
        self.place = code % 16;
    }

    // The number and the byte are the rack's; the rest is of the card, if there is one.
    pub(super) fn field(&self, rt: &impl Print, name: u8) -> io::Result<()> {
        match (name, self.rack.card(self.place)) {
            (b'n', _) => print!(rt; "{}", self.number()),
            (b'y', _) => print!(rt; "{:02X}", self.answer.unwrap_or(0)),
            (_, Ok(card)) => self.of_card(rt, &card, name),
            (_, Err(_)) => print!(rt; "no card"),
        }
    }

    fn number(&self) -> u8 {
        match self.answer {
            Ok(_) => 0,
            Err(refused) => refused.number(),
        }
    }

    // What a letter names of the card at the place: its pins, its channels and what is said of its INTR are asked of the rack, and the rest of
    // the card taken out.
    fn of_card(&self, rt: &impl Print, card: &Chip, name: u8) -> io::Result<()> {
        if let Some((group, side)) = letters::channel(name) {
            let tally = self.rack.tally(self.place, group, side);
            let channel = card.core.channel(group, side);
            return show::channel(rt, channel, tally.unwrap_or_default());
        }
        match name {
            b'i' => self.said(rt, Group::A),
            b'j' => self.said(rt, Group::B),
            b'A'..=b'D' | b'a'..=b'd' => self.pins(rt, name),
            _ => card.field(rt, name),
        }
    }

    fn said(&self, rt: &impl Print, group: Group) -> io::Result<()> {
        match self.rack.explain(self.place, group) {
            Ok(explained) => show::explained(rt, explained),
            Err(_) => Ok(()),
        }
    }

    fn pins(&self, rt: &impl Print, name: u8) -> io::Result<()> {
        let shown = self.rack.pins(self.place, letters::port(name));
        letters::show(rt, name, shown.unwrap_or_default())
    }
}
