//! What a script leaves, where nobody reads its answers.
ghost use Rattle.std.specs.Prelude.{◌≡◌};
ghost use Rattle.script.specs.Left.{left_told, left_by};

use super::{LONGEST, RunRefusal, Scripted};
use text::lines::Lines;

/// Has the subject take every line of a text, and says how many of them it refused. A text that is too long leaves the subject as it was.
pub fn take_all<S: Scripted>(subject: &mut S, text: &[u8]) -> Result<usize, RunRefusal>
    ensures { left_told result subject.new ≡ left_by S.answerer subject.old text.now }
{
    if LONGEST < text.len() {
        return Err(RunRefusal::TooLong);
    }
    // A loop and no chain of filters: each line changes the subject.
    let mut refused = 0;
    for line in Lines::new(text) {
        if subject.take(line).number != 0 {
            refused += 1;
        }
    }
    Ok(refused)
}
