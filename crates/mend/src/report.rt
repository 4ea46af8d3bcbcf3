//! The report: the sign of each line.
ghost use Rattle.std.specs.Prelude.{◌≡◌, ◌≤◌, length};
ghost use Rattle.text.specs.Lines.{line_count};
ghost use Rattle.mend.specs.Mend.{report_of, in_front};

use crate::signs::Sign;
use text::lines::Lines;

// Writes the report to the front of an output. It has no place for the reason of an unfit line.
pub(super) fn write(text: &[u8], out: &mut [u8])
    requires { line_count text.now ≤ length out.old }
    ensures { out.new ≡ in_front (report_of text.now) out.old }
{
    // A zip with the output tells the prover nothing of what was written.
    for (at, line) in Lines::new(text).enumerate() {
        out[at] = Sign::of(line).letter();
    }
}
