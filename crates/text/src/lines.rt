//! The lines of a text. A line begins at the start of the text, or past an LF.
ghost use Rattle.std.specs.Prelude.{◌≡◌};
ghost use Rattle.text.specs.Lines.{line_count};

use crate::LF;
use crate::line::Line;

/// The lines of a text, one after the other.
#[derive(Clone, Copy, Debug)]
pub struct Lines<'a> {
    /// What is left of the text.
    pub text: &'a [u8],
}

impl<'a> Lines<'a> {
    /// The lines of this text.
    pub fn new(text: &'a [u8]) -> Self
        ensures { result.text ≡ text.entry }
    {
        Lines { text }
    }
}

impl<'a> Iterator for Lines<'a> {
    ghost use Rattle.std.specs.Iterator.{YieldsFirstBy, item_count};
    ghost use Rattle.text.specs.Answers.{line_of, lines_left};

    type Item = Line<'a>;

    ghost next_gives = { YieldsFirstBy line_of lines_left };

    ghost remaining = { item_count lines_left };

    #[tactic(auto, using(crate::proofs::FirstLine::rest_alone, crate::proofs::FirstLine::no_line))]
    fn next(&mut self) -> Option<Line<'a>> {
        if self.text.is_empty() {
            return None;
        }
        let text = self.text;
        match text.iter().position(|&byte| byte == LF) {
            Some(end) => {
                self.text = &text[end + 1..];
                Some(Line::Ended(&text[..end]))
            }
            None => {
                self.text = &[];
                Some(Line::Rest(text))
            }
        }
    }
}

/// How many lines a text has.
pub fn count(text: &[u8]) -> usize
    ensures { result ≡ line_count text.now }
{
    Lines::new(text).count()
}
