//! What holds a chip. Each rule is a function over the trait `Holder`, written once for the two that hold one: a `Chip` holds itself, and an array
//! of bytes holds the chip whose image it is, for which the crate `image` says it. What is marked to be drawn into its callers becomes a part of the
//! one function that a kind of event has there; without the marks the compiler leaves some of it outside.
ghost use Rattle.std.specs.Prelude.{◌≡◌};
ghost use Rattle.chip.specs.State.{port_of, channel_of, with_word, with_channel, with_outside, with_latch, with_lines, with_enables};
ghost use Rattle.chip.specs.Handshakes.{running};
ghost use Rattle.chip.specs.Held.{Way, Becomes, Leaves, Holds, phase_put, on_channel, latched, itself};

use super::channel::{Channel, Side};
use super::handshakes::running;
use super::{Chip, Edition, Enables};
use bus::Phase;
use control::Group;

/// Holds a chip, part by part. `Home` is any type of the crate that has the impl. An array is no crate's own, so without it no crate but this one
/// could have an impl for one.
pub trait Holder<Home> {
    /// Which chip is held, and how.
    ghost way: { Way Self };

    /// What runs on the bus.
    fn phase(&self) -> Phase
        ensures { result ≡ (way.chip self.now).phase };

    /// Whether the channel's own cycle runs: a read of its port for an input, a write to it for an output.
    fn runs(&self, group: Group, side: Side) -> bool
        ensures { result ≡ running (way.chip self.now).phase group side }
    {
        running(self.phase(), group, side)
    }

    /// The edition.
    fn edition(&self) -> Edition
        ensures { result ≡ (way.chip self.now).edition };

    /// The mode word.
    fn word(&self) -> u8
        ensures { result ≡ (way.chip self.now).core.word };

    /// A channel.
    fn channel(&self, group: Group, side: Side) -> Channel
        ensures { result ≡ channel_of (way.chip self.now).core group side };

    /// The levels put on the lines of port A or B from outside.
    fn outside(&self, group: Group) -> u8
        ensures { result ≡ (port_of (way.chip self.now).core group).outside };

    /// The latch of port C.
    fn latch_c(&self) -> u8
        ensures { result ≡ (way.chip self.now).core.c.latch };

    /// The levels put on the lines of port C from outside.
    fn outside_c(&self) -> u8
        ensures { result ≡ (way.chip self.now).core.c.outside };

    /// The interrupt enables.
    fn enables(&self) -> Enables
        ensures { result ≡ (way.chip self.now).core.inte };

    /// Puts what runs on the bus, if a cycle at that address can be held.
    fn put_phase(&mut self, phase: Phase)
        ensures { Holds way phase → Becomes way self.old self.new (phase_put phase) };

    /// Puts the mode word.
    fn put_word(&mut self, word: u8)
        ensures { Leaves way self.old self.new (λ c. with_word c word) };

    /// Puts a channel.
    fn put_channel(&mut self, group: Group, side: Side, channel: Channel)
        ensures { Leaves way self.old self.new (λ c. with_channel c group side channel) };

    /// Puts what stands in the latch of a channel, and leaves all else of it.
    fn put_latch(&mut self, group: Group, side: Side, byte: u8)
        ensures { Leaves way self.old self.new (λ c. on_channel c group side (latched byte)) };

    /// Puts the levels of port A or B.
    fn put_outside(&mut self, group: Group, levels: u8)
        ensures { Leaves way self.old self.new (λ c. with_outside c group levels) };

    /// Puts the latch of port C.
    fn put_latch_c(&mut self, byte: u8)
        ensures { Leaves way self.old self.new (λ c. with_latch c byte) };

    /// Puts the levels of port C.
    fn put_outside_c(&mut self, levels: u8)
        ensures { Leaves way self.old self.new (λ c. with_lines c levels) };

    /// Puts the interrupt enables.
    fn put_enables(&mut self, enables: Enables)
        ensures { Leaves way self.old self.new (λ c. with_enables c enables) };
}

impl Holder<Chip> for Chip {
    ghost way = { itself };

    fn phase(&self) -> Phase {
        self.phase
    }

    fn edition(&self) -> Edition {
        self.edition
    }

    fn word(&self) -> u8 {
        self.core.word
    }

    fn channel(&self, group: Group, side: Side) -> Channel {
        self.core.channel(group, side)
    }

    fn outside(&self, group: Group) -> u8 {
        self.core.port(group).outside
    }

    fn latch_c(&self) -> u8 {
        self.core.c.latch
    }

    fn outside_c(&self) -> u8 {
        self.core.c.outside
    }

    fn enables(&self) -> Enables {
        self.core.inte
    }

    fn put_phase(&mut self, phase: Phase) {
        self.phase = phase;
    }

    fn put_word(&mut self, word: u8) {
        self.core.word = word;
    }

    fn put_channel(&mut self, group: Group, side: Side, channel: Channel) {
        match (group, side) {
            (Group::A, Side::Input) => self.core.a.input = channel,
            (Group::A, Side::Output) => self.core.a.output = channel,
            (Group::B, Side::Input) => self.core.b.input = channel,
            (Group::B, Side::Output) => self.core.b.output = channel,
        }
    }

    fn put_latch(&mut self, group: Group, side: Side, byte: u8) {
        match (group, side) {
            (Group::A, Side::Input) => self.core.a.input.latch = byte,
            (Group::A, Side::Output) => self.core.a.output.latch = byte,
            (Group::B, Side::Input) => self.core.b.input.latch = byte,
            (Group::B, Side::Output) => self.core.b.output.latch = byte,
        }
    }

    fn put_outside(&mut self, group: Group, levels: u8) {
        match group {
            Group::A => self.core.a.outside = levels,
            Group::B => self.core.b.outside = levels,
        }
    }

    fn put_latch_c(&mut self, byte: u8) {
        self.core.c.latch = byte;
    }

    fn put_outside_c(&mut self, levels: u8) {
        self.core.c.outside = levels;
    }

    fn put_enables(&mut self, enables: Enables) {
        self.core.inte = enables;
    }
}
