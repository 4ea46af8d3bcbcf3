//! One line of a captured script: its bytes as they are mended, and whether they are a frame then.
ghost use Rattle.std.specs.Prelude.{◌≡◌, ◌∷◌, ◌++◌, map, suc, ◌<◌, length, drop};
ghost use Rattle.text.specs.Lines.{lf};
ghost use Rattle.text.specs.Frames.{is_frame};
ghost use Rattle.mend.specs.Line.{raised, without_cr, mended};

use text::LF;
use text::line::Line;

// What some captures have before LF.
const CR: u8 = 13;

// The longest frame is a kind and two operands.
const LONGEST_FRAME: usize = 6;

// The capital of a small digit; any other code is as it was.
#[tactic(auto, unfolding(crate::specs::Line::raised))]
pub(super) fn raise(code: u8) -> u8
    ensures { result ≡ raised code }
{
    match code {
        b'a'..=b'f' => code.to_ascii_uppercase(),
        _ => code,
    }
}

// A line without the CR at its end.
pub(super) fn without_cr(line: &[u8]) -> &[u8]
    ensures { result.now ≡ without_cr line.now }
{
    line.strip_suffix(&[CR]).unwrap_or(line)
}

// Puts bytes at the start of an output, their digits raised, and LF behind them.
pub(super) fn put(out: &mut [u8], bytes: &[u8])
    requires { length bytes.now < length out.old }
    ensures { out.new ≡ map raised bytes.now ++ lf ∷ drop (suc (length bytes.now)) out.old }
{
    // `copy_from_slice` would be a call of C's memcpy, which a C program would then have to bring.
    for (at, &code) in bytes.iter().enumerate() {
        out[at] = raise(code);
    }
    out[bytes.len()] = LF;
}

// Whether a line is a frame when it is mended: it is mended in a room that has just the longest one and its LF.
#[tactic(auto, using(crate::proofs::Fit::too_wide))]
pub(super) fn is_fit(line: &[u8]) -> bool
    ensures { result ≡ is_frame (mended line.now) }
{
    let bytes = without_cr(line);
    if LONGEST_FRAME < bytes.len() {
        return false;
    }
    let mut room = [0u8; LONGEST_FRAME + 1];
    put(&mut room, bytes);
    Line::Ended(&room[..bytes.len()]).event().is_some()
}
