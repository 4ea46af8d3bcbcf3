//! Mending a captured script: a clean script is made of its lines, and a report has a sign for each of them.
#![tactic(auto)]

ghost use Rattle.std.specs.Prelude.{◌≡◌, ◌≤◌, length, OnOk};
ghost use Rattle.text.specs.Lines.{line_count};
ghost use Rattle.mend.specs.Mend.{mend_refusal_number, mend_refusal_never_0, mend_told, clean_of, outcome_of, mend_answer, clean_left, report_left};

use bus::refusals::Numbered;
use script::LONGEST;
use text::lines;

mod clean;
mod line;
mod report;
pub mod signs;

/// How long the clean script and the report are.
#[derive(Clone, Copy, Debug, PartialEq, Eq)]
pub struct Mended {
    pub clean: usize,
    pub report: usize,
}

/// Why a call is refused. Not the refusal of a run: that one knows neither a clean form nor a second output.
#[derive(Clone, Copy, Debug, PartialEq, Eq)]
pub enum MendRefusal {
    /// The text or its clean form is longer than a script may be.
    TooLong = 6,
    /// One of the outputs has too little room.
    NoRoom = 7,
}

impl Numbered for MendRefusal {
    ghost number_of = { mend_refusal_number };

    ghost never_0 = { mend_refusal_never_0 };

    fn number(&self) -> u8 {
        *self as u8
    }
}

// What a call comes to, by the text and by the room that each output has.
#[tactic(auto, unfolding(crate::specs::Mend::mend_number, crate::specs::Mend::report_of))]
fn judge(text: &[u8], clean: usize, report: usize) -> Result<Mended, MendRefusal>
    ensures told { mend_told result ≡ outcome_of text.now clean report }
    ensures clean_fits { OnOk result (length (clean_of text.now) ≤ clean) }
    ensures report_fits { OnOk result (line_count text.now ≤ report) }
{
    if LONGEST < text.len() {
        return Err(MendRefusal::TooLong);
    }
    let length = clean::length(text);
    if LONGEST < length {
        return Err(MendRefusal::TooLong);
    }
    let lines = lines::count(text);
    if clean < length || report < lines {
        return Err(MendRefusal::NoRoom);
    }
    Ok(Mended {
        clean: length,
        report: lines,
    })
}

/// Writes the clean script and the report to the front of their outputs. A refused call leaves both as they were.
#[tactic(auto, unfolding(crate::specs::Mend::clean_left, crate::specs::Mend::report_left))]
pub fn mend(text: &[u8], clean: &mut [u8], report: &mut [u8]) -> Result<Mended, MendRefusal>
    ensures told { mend_told result ≡ outcome_of text.now (length clean.old) (length report.old) }
    ensures clean_after { clean.new ≡ clean_left text.now clean.old report.old }
    ensures report_after { report.new ≡ report_left text.now clean.old report.old }
{
    let mended = judge(text, clean.len(), report.len())?;
    clean::write(text, clean);
    report::write(text, report);
    Ok(mended)
}

/// The same for C: it gives both lengths above the number. include/towanchor.h declares it.
#[tactic(auto, unfolding(crate::specs::Mend::mend_answer))]
pub fn towanchor_mend(text: &[u8], clean: &mut [u8], report: &mut [u8]) -> u64
    ensures value { result ≡ mend_answer text.now (length clean.old) (length report.old) }
    ensures clean_after { clean.new ≡ clean_left text.now clean.old report.old }
    ensures report_after { report.new ≡ report_left text.now clean.old report.old }
{
    match mend(text, clean, report) {
        Ok(mended) => 256 * (mended.clean as u64) + 4_294_967_296 * (mended.report as u64),
        Err(refusal) => u64::from(refusal.number()),
    }
}
