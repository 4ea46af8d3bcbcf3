//! What becomes of a line of a captured script: its sign and, where it is unfit, why.
ghost use Rattle.std.specs.Prelude.{◌≡◌, map};
ghost use Rattle.std.specs.List.{list_all};
ghost use Rattle.bus.specs.Kinds.{is_kind};
ghost use Rattle.text.specs.Digits.{pair_value};
ghost use Rattle.text.specs.Frames.{is_event, frame_in};
ghost use Rattle.text.specs.Answers.{line_of};
ghost use Rattle.mend.specs.Line.{raised, letter_of, sign_of};
ghost use Rattle.mend.specs.Reason.{is_digit, names_no_kind, why, reason_told, reason_of};

use crate::line::{self, raise};
use bus::kinds::Kind;
use std::fmt;
use text::line::{Line, byte_at};

/// What becomes of a line.
#[derive(Clone, Copy, Debug, PartialEq, Eq)]
pub enum Sign {
    /// It is a frame as it stands.
    Kept,
    /// It is a frame once it is mended.
    Mended,
    /// Nothing stands in front of its LF, or one CR alone.
    Blank,
    /// It is no frame, mended or not.
    Unfit(Reason),
}

/// Why a line is unfit: the first of these that is true of it when it is mended.
#[derive(Clone, Copy, Debug, PartialEq, Eq)]
pub enum Reason {
    /// One of its codes is no digit.
    OddDigit,
    /// Its first two digits are the number of no kind.
    NoKind,
    /// It has more digits than its kind and operands, or fewer; one digit alone is no kind.
    WrongCount,
}

// Whether a code is a digit, a small one or a capital.
#[tactic(auto, using(crate::proofs::Unfit::either_size))]
fn is_digit(code: u8) -> bool
    ensures { result ≡ is_digit (raised code) }
{
    code.is_ascii_hexdigit()
}

// Whether each code is.
fn all_digits(bytes: &[u8]) -> bool
    ensures { result ≡ list_all (λ code. is_digit (raised code)) bytes.now }
{
    bytes.iter().all(|code| is_digit(*code))
}

// Whether two digits, small ones or capitals, are the number of a kind. They are read as a line, since `text` reads a pair of digits alone for
// itself.
fn is_kind(high: u8, low: u8) -> bool
    ensures { result ≡ is_kind (pair_value (raised high) (raised low)) }
{
    match byte_at(&[raise(high), raise(low)], 0) {
        Some(number) => Kind::numbered(u16::from(number)).is_some(),
        None => false,
    }
}

// Whether the first two digits are the number of no kind.
fn names_no_kind(bytes: &[u8]) -> bool
    ensures { result ≡ names_no_kind (map raised bytes.now) }
{
    match bytes {
        [high, low, ..] => !is_kind(*high, *low),
        _ => false,
    }
}

impl Reason {
    // Why a line is unfit that is not blank, by its bytes without the CR.
    #[tactic(auto, using(crate::proofs::Unfit::all_raised), unfolding(crate::specs::Reason::why))]
    fn of(bytes: &[u8]) -> Self
        ensures { result ≡ why (map raised bytes.now) }
    {
        if !all_digits(bytes) {
            Reason::OddDigit
        } else if names_no_kind(bytes) {
            Reason::NoKind
        } else {
            Reason::WrongCount
        }
    }
}

// Whether a line is a frame as it stands.
#[tactic(auto, using(crate::proofs::Fit::event_told))]
fn is_frame(line: Line<'_>) -> bool
    ensures { result ≡ is_event (frame_in (line_of line.entry)) }
{
    line.event().is_some()
}

impl Sign {
    /// The sign of a line. It is kept just where it is a frame as it stands.
    #[tactic(auto, using(crate::proofs::Judging::signs))]
    pub fn of(line: Line<'_>) -> Self
        ensures letter { letter_of result ≡ sign_of (line_of line.entry) }
        ensures reason { reason_told result ≡ reason_of (line_of line.entry) }
    {
        if is_frame(line) {
            return Sign::Kept;
        }
        if line::is_fit(line.bytes()) {
            return Sign::Mended;
        }
        let bytes = line::without_cr(line.bytes());
        if bytes.is_empty() {
            return Sign::Blank;
        }
        Sign::Unfit(Reason::of(bytes))
    }

    // Its letter in the report. By discriminants it would be no plainer: they are of type `isize`, and each letter would be cast to it.
    pub(super) fn letter(self) -> u8
        ensures { result ≡ letter_of self }
    {
        match self {
            Sign::Kept => b'K',
            Sign::Mended => b'M',
            Sign::Blank => b'B',
            Sign::Unfit(_) => b'U',
        }
    }
}

/// In plain words.
impl fmt::Display for Reason {
    ghost use Rattle.std.specs.Prelude.{Some};
    ghost use Rattle.mend.specs.Words.{reason_words};

    ghost output = { λ reason. Some (reason_words reason) };

    fn fmt<W: fmt::Write>(&self, f: &mut fmt::Formatter<W>) -> fmt::Result {
        f.write_str(match self {
            Reason::OddDigit => "odd digit",
            Reason::NoKind => "no such kind",
            Reason::WrongCount => "wrong count of digits",
        })
    }
}

/// The letter and, where a line is unfit, why.
impl fmt::Display for Sign {
    ghost use Rattle.std.specs.Prelude.{Some};
    ghost use Rattle.mend.specs.Words.{sign_words};

    ghost output = { λ sign. Some (sign_words sign) };

    fn fmt<W: fmt::Write>(&self, f: &mut fmt::Formatter<W>) -> fmt::Result {
        match self {
            Sign::Kept => f.write_str("K"),
            Sign::Mended => f.write_str("M"),
            Sign::Blank => f.write_str("B"),
            Sign::Unfit(reason) => write!(f, "U, {reason}"),
        }
    }
}
