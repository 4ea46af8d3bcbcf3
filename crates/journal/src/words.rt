//! The words of a journal: an event packed in 32 bits, what a word packs, and whether it is a frame.
ghost use Rattle.std.specs.Prelude.{◌≡◌};
ghost use Rattle.bus.specs.Answers.{raw};
ghost use Rattle.bus.specs.Event.{event};
ghost use Rattle.journal.specs.Words.{word_of, event_in, logged_in, unused_zero, is_frame, all_frames};

use bus::events::Event;
use bus::kinds::Kind;

/// An event as it was logged. The number of its kind may be no byte, for all upper sixteen bits of a word are the kind.
#[derive(Clone, Copy, Debug, PartialEq, Eq)]
pub struct Logged {
    pub kind: u16,
    pub first: u8,
    pub second: u8,
}

impl Logged {
    /// What a word packs, whether or not it is a frame.
    pub fn read(word: u32) -> Self
        ensures { result ≡ logged_in word }
    {
        let [_, _, first, second] = word.to_be_bytes();
        Logged {
            // Not from the two upper bytes, which the compiler would put together one by one.
            kind: (word >> 16) as u16,
            first,
            second,
        }
    }

    /// The word that packs it. For a frame the operands that the kind lacks are 0.
    pub fn pack(self) -> u32
        ensures { result ≡ word_of (event self.kind self.first self.second) }
    {
        let [high, low] = self.kind.to_be_bytes();
        u32::from_be_bytes([high, low, self.first, self.second])
    }

    // Whether nothing stands where a kind of so many operands has none: in both of them, in the second, or nowhere.
    fn is_exact(self, operands: u8) -> bool
        ensures { result ≡ unused_zero operands (event self.kind self.first self.second) }
    {
        match operands {
            0 => self.first == 0 && self.second == 0,
            1 => self.second == 0,
            _ => true,
        }
    }
}

impl From<Event> for Logged {
    ghost from_gives = { λ given logged. event logged.kind logged.first logged.second ≡ raw given };

    fn from(event: Event) -> Self {
        let (kind, first, second) = match event {
            Event::Reset => (Kind::Reset, 0, 0),
            Event::BeginRead(address) => (Kind::BeginRead, address, 0),
            Event::EndCycle => (Kind::EndCycle, 0, 0),
            Event::BeginWrite(address, byte) => (Kind::BeginWrite, address, byte),
            Event::OutsideLevels(port, levels) => (Kind::OutsideLevels, port, levels),
        };
        Logged {
            kind: u16::from(kind.number()),
            first,
            second,
        }
    }
}

// Whether a word is a frame: there is such a kind, and nothing stands where it has no operand.
#[tactic(auto, unfolding(crate::specs::Words::is_frame))]
fn is_frame(word: u32) -> bool
    ensures { result ≡ is_frame (event_in word) }
{
    let logged = Logged::read(word);
    // By a match, into which the prover goes as it does not go into a closure.
    match Kind::numbered(logged.kind) {
        Some(kind) => logged.is_exact(kind.operands()),
        None => false,
    }
}

// Whether all words are frames.
pub(super) fn all_frames(words: &[u32]) -> bool
    ensures { result ≡ all_frames words.now }
{
    words.iter().all(|word| is_frame(*word))
}
