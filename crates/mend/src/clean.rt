//! The clean script: how long it is, and its writing.
ghost use Rattle.std.specs.Prelude.{◌≡◌, ◌≤◌, length};
ghost use Rattle.mend.specs.Line.{clean_line};
ghost use Rattle.mend.specs.Mend.{clean_of, in_front};

use crate::line;
use text::lines::Lines;

// How many bytes the clean script has of a line: its own and LF where it is fit, and else none.
#[tactic(auto, using(crate::proofs::Cleaning::fit_length), unfolding(crate::specs::Line::clean_line))]
fn length_of(line: &[u8]) -> usize
    ensures { result ≡ length (clean_line line.now) }
{
    if line::is_fit(line) {
        line::without_cr(line).len() + 1
    } else {
        0
    }
}

// How many bytes the clean script has.
pub(super) fn length(text: &[u8]) -> usize
    ensures { result ≡ length (clean_of text.now) }
{
    Lines::new(text).map(|line| length_of(line.bytes())).sum()
}

// Puts what the clean script has of a line at the start of an output; how many bytes that is.
#[tactic(auto, using(crate::proofs::Cleaning::fit_length), unfolding(crate::specs::Line::clean_line))]
fn put_line(out: &mut [u8], line: &[u8]) -> usize
    requires { length (clean_line line.now) ≤ length out.old }
    ensures value { result ≡ length (clean_line line.now) }
    ensures out_after { out.new ≡ in_front (clean_line line.now) out.old }
{
    if !line::is_fit(line) {
        return 0;
    }
    let bytes = line::without_cr(line);
    line::put(out, bytes);
    bytes.len() + 1
}

// Writes the clean script to the front of an output, each line from where the last one stopped. A walk by `split_at_mut` would be no plainer:
// how much of the output a line takes is known once it is put.
#[tactic(auto, unfolding(crate::specs::Mend::clean_of))]
pub(super) fn write(text: &[u8], out: &mut [u8])
    requires { length (clean_of text.now) ≤ length out.old }
    ensures { out.new ≡ in_front (clean_of text.now) out.old }
{
    let mut at = 0;
    for line in Lines::new(text) {
        at += put_line(&mut out[at..], line.bytes());
    }
}
