//! One strobed channel: whether a byte waits in it, its latch, and what became of the bytes offered to it or planted in it. The four
//! channels of a chip are all of this kind.
ghost use Rattle.std.specs.Prelude.{◌≡◌};
ghost use Rattle.chip.specs.Channel.{is_waiting, flag_of, has_room, next};
ghost use Rattle.chip.specs.Moves.{after_offer, after_hand_over, after_end_read, after_clear, tells_of_a_byte, after_plant, after_strike, after_force};

/// Which way a channel's bytes go: an input takes them in by STB, an output gives them out by ACK.
#[derive(Clone, Copy, Debug, PartialEq, Eq)]
pub enum Side {
    Input,
    Output,
}

/// Whether a byte waits, with the number that an image has for it. A channel is fetching while the read that was handed its byte still runs.
#[derive(Clone, Copy, Debug, PartialEq, Eq, Default)]
pub enum Fill {
    #[default]
    Empty = 0,
    Waiting = 1,
    Fetching = 2,
}

/// How many bytes were offered, how many met each fate, and how many were planted, modulo 65,536.
#[derive(Clone, Copy, Debug, PartialEq, Eq, Default)]
pub struct Tally {
    pub offered: u16,
    pub handed: u16,
    pub overwritten: u16,
    pub swallowed: u16,
    pub planted: u16,
    pub struck: u16,
    pub cleared: u16,
}

/// A channel. By default it is as at power-up: empty, its latch 00, nothing counted.
#[derive(Clone, Copy, Debug, PartialEq, Eq, Default)]
pub struct Channel {
    pub fill: Fill,
    pub latch: u8,
    pub tally: Tally,
}

impl Fill {
    /// The buffer flag of a channel of that side: IBF of an input, OBF of an output. Data sheet: Input Control Signal Definition, Output Control
    /// Signal Definition.
    #[tactic(auto, unfolding(crate::specs::Channel::flag_of))]
    pub fn flag(self, side: Side) -> bool
        ensures { result ≡ flag_of side self }
    {
        match side {
            Side::Input => self != Fill::Empty,
            Side::Output => self != Fill::Waiting,
        }
    }

    // Whether a byte waits.
    pub(super) fn is_waiting(self) -> bool
        ensures { result ≡ is_waiting self }
    {
        self == Fill::Waiting
    }

    // Whether a byte can be planted: the flag tells of none.
    #[tactic(auto, unfolding(crate::specs::Channel::flag_of, crate::specs::Channel::has_room))]
    fn has_room(self, side: Side) -> bool
        ensures { result ≡ has_room side self }
    {
        !side.tells_of_a_byte(self.flag(side))
    }
}

impl Side {
    // Whether the flag of a channel of this side, at that level, tells of a byte.
    fn tells_of_a_byte(self, level: bool) -> bool
        ensures { result ≡ tells_of_a_byte self level }
    {
        match self {
            Side::Input => level,
            Side::Output => !level,
        }
    }
}

// A tally goes on where the condition holds; after 65,535 it begins again at 0.
fn count(tally: &mut u16, on: bool)
    ensures { tally.new ≡ next on tally.old }
{
    if on {
        *tally = tally.wrapping_add(1);
    }
}

impl Channel {
    /// A byte is offered, and one that waits is overwritten.
    #[tactic(auto, unfolding(crate::specs::Moves::after_offer))]
    pub fn offer(&mut self, byte: u8)
        ensures { self.new ≡ after_offer self.old byte }
    {
        count(&mut self.tally.offered, true);
        count(&mut self.tally.overwritten, self.fill.is_waiting());
        self.fill = Fill::Waiting;
        self.latch = byte;
    }

    /// A byte that waits is handed over, and the channel is left as named: fetching by a read that begins, empty by ACK.
    #[tactic(auto, unfolding(crate::specs::Moves::after_hand_over))]
    pub fn hand_over(&mut self, left: Fill)
        ensures { self.new ≡ after_hand_over self.old left }
    {
        if self.fill.is_waiting() {
            count(&mut self.tally.handed, true);
            self.fill = left;
        }
    }

    /// A read that this channel takes part in ends: the channel is empty, and a byte that waits is swallowed.
    #[tactic(auto, unfolding(crate::specs::Moves::after_end_read))]
    pub fn end_read(&mut self)
        ensures { self.new ≡ after_end_read self.old }
    {
        count(&mut self.tally.swallowed, self.fill.is_waiting());
        self.fill = Fill::Empty;
    }

    /// A mode word or a reset: latch and channel are empty, and a byte that waits is cleared.
    #[tactic(auto, unfolding(crate::specs::Moves::after_clear))]
    pub fn clear(&mut self)
        ensures { self.new ≡ after_clear self.old }
    {
        count(&mut self.tally.cleared, self.fill.is_waiting());
        self.fill = Fill::Empty;
        self.latch = 0;
    }

    #[tactic(auto, unfolding(crate::specs::Moves::after_plant))]
    fn plant(&mut self, side: Side)
        ensures { self.new ≡ after_plant side self.old }
    {
        if self.fill.has_room(side) {
            count(&mut self.tally.planted, true);
            self.fill = Fill::Waiting;
        }
    }

    #[tactic(auto, unfolding(crate::specs::Moves::after_strike))]
    fn strike(&mut self)
        ensures { self.new ≡ after_strike self.old }
    {
        if self.fill.is_waiting() {
            count(&mut self.tally.struck, true);
            self.fill = Fill::Empty;
        }
    }

    /// The channel's flag is forced to a level: a byte is planted where there is room for one, or struck where one waits.
    #[tactic(auto, unfolding(crate::specs::Moves::after_force))]
    pub fn force(&mut self, side: Side, level: bool)
        ensures { self.new ≡ after_force side level self.old }
    {
        if side.tells_of_a_byte(level) {
            self.plant(side)
        } else {
            self.strike()
        }
    }
}
