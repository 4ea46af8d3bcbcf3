//! The kinds of events, their numbers, and how many operands each has. 04 is no kind.
ghost use Rattle.std.specs.Prelude.{◌≡◌};
ghost use Rattle.bus.specs.Kinds.{operands_of};
ghost use Rattle.bus.specs.Answers.{kind_number, kind_numbered};

/// A kind of event, with the number that scripts and C have for it.
#[derive(Clone, Copy, Debug, PartialEq, Eq)]
pub enum Kind {
    Reset = 0,
    BeginRead = 1,
    EndCycle = 2,
    BeginWrite = 3,
    OutsideLevels = 5,
}

impl Kind {
    /// The kind of a number; `None` where there is no such kind. The number may be no byte: what is read of a packed word can be more.
    // An `Option` and no `TryFrom`: that there is no such kind is all that there is to tell, and each caller has its own refusal for it.
    pub fn numbered(number: u16) -> Option<Kind>
        ensures { result ≡ kind_numbered number }
    {
        match number {
            0 => Some(Kind::Reset),
            1 => Some(Kind::BeginRead),
            2 => Some(Kind::EndCycle),
            3 => Some(Kind::BeginWrite),
            5 => Some(Kind::OutsideLevels),
            _ => None,
        }
    }

    /// The number of the kind.
    pub fn number(self) -> u8
        ensures { result ≡ kind_number self }
    {
        self as u8
    }

    /// How many operands an event of the kind has.
    #[tactic(auto, unfolding(crate::specs::Kinds::operands_of))]
    pub fn operands(self) -> u8
        ensures { result ≡ operands_of (kind_number self) }
    {
        match self {
            Kind::Reset | Kind::EndCycle => 0,
            Kind::BeginRead => 1,
            Kind::BeginWrite | Kind::OutsideLevels => 2,
        }
    }
}
