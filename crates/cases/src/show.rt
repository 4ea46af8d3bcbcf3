// What a letter names of the 8255A and the 82C55A alone. The words for enums of the chip are functions: `Display` would want a type of our own
// around each of them.
use super::answers::Fields;
use super::letters;
use bus::devices::Device;
use chip::channel::{Channel, Fill, Tally};
use chip::reasons::{Explained, Reason};
use chip::{Chip, Edition, PORT_C};
use std::io;

// Whether a byte waits in the channel.
fn fill(fill: Fill) -> &'static str {
    match fill {
        Fill::Empty => "empty",
        Fill::Waiting => "waiting",
        Fill::Fetching => "fetching",
    }
}

// That, and its tallies.
pub(super) fn channel(rt: &impl Print, channel: Channel, tally: Tally) -> io::Result<()> {
    print!(rt;
        "{}, offered {}, handed over {}, overwritten {}, swallowed {}, cleared {}, planted {}, struck {}",
        fill(channel.fill),
        tally.offered,
        tally.handed,
        tally.overwritten,
        tally.swallowed,
        tally.cleared,
        tally.planted,
        tally.struck
    )
}

fn half(reason: Reason) -> &'static str {
    match reason {
        Reason::EnableOff => "enable off",
        Reason::FlagWrong => "flag wrong",
        Reason::LineLow => "line low",
        Reason::OwnCycle => "own cycle",
        Reason::High => "high",
    }
}

// What is said of a group's INTR.
pub(super) fn explained(rt: &impl Print, explained: Explained) -> io::Result<()> {
    match explained {
        Explained::ModeZero => print!(rt; "mode 0"),
        Explained::InputHalf(input) => print!(rt; "input {}", half(input)),
        Explained::OutputHalf(output) => print!(rt; "output {}", half(output)),
        Explained::BothHalves(input, output) => {
            print!(rt; "input {}, output {}", half(input), half(output))
        }
    }
}

// The same of a group by its number.
fn said(rt: &impl Print, chip: &Chip, group: u8) -> io::Result<()> {
    match chip.explain_numbered(group) {
        Some(said) => explained(rt, said),
        None => print!(rt; "no such group"),
    }
}

fn edition(edition: Edition) -> &'static str {
    match edition {
        Edition::Older => "older",
        Edition::Newer => "newer",
    }
}

impl Fields for Chip {
    fn field(&self, rt: &impl Print, name: u8) -> io::Result<()> {
        if let Some((group, side)) = letters::channel(name) {
            return channel(rt, self.core.channel(group, side), self.tally(group, side));
        }
        match name {
            b'r' => print!(rt; "{:02X}", self.answer(PORT_C)),
            b'v' => print!(rt; "{}", edition(self.edition)),
            b'w' => print!(rt; "{:02X}", self.core.word),
            b'i' => said(rt, self, 0),
            b'j' => said(rt, self, 1),
            b'k' => said(rt, self, 2),
            _ => print!(rt; "-"),
        }
    }
}
