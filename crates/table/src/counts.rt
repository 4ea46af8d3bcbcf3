//! How often an answer is given, over every pair of a word and a pin that two bytes can name.
use crate::reading;
use control::lookup;
use std::fmt;

/// To how many pairs of a word and a pin the table gives an answer, to how many the lookup does, and to how many both do.
#[derive(Clone, Copy, Debug)]
pub(super) struct Counts {
    table: usize,
    lookup: usize,
    both: usize,
}

// For how many pairs that holds.
fn pairs<F: Fn(u8, u8) -> bool>(holds: F) -> usize
    requires { F.IsAlwaysCallable holds }
{
    (0..=u16::MAX)
        .filter(|pair| {
            let [word, pin] = pair.to_be_bytes();
            holds(word, pin)
        })
        .count()
}

impl Counts {
    /// The counts of an answer.
    pub(super) fn of(answer: u8) -> Counts {
        let in_table = |word, pin| reading::answer(word, pin) == answer;
        let looked_up = |word, pin| lookup::role(word, pin) == answer;
        Counts {
            table: pairs(in_table),
            lookup: pairs(looked_up),
            both: pairs(|word, pin| in_table(word, pin) && looked_up(word, pin)),
        }
    }
}

impl fmt::Display for Counts {
    fn fmt<W: fmt::Write>(&self, f: &mut fmt::Formatter<W>) -> fmt::Result {
        write!(f, "{}\t{}\t{}", self.table, self.lookup, self.both)
    }
}
