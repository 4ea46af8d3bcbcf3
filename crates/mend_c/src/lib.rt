//! The mending of a captured script for C: that of the crate mend under the same name. include/towanchor.h declares it.
#![tactic(auto)]

ghost use Rattle.std.specs.Prelude.{◌≡◌, length};
ghost use Rattle.mend.specs.Mend.{mend_answer, clean_left, report_left};

/// Writes the clean script and the report to the front of their outputs, and gives both lengths above the number. A refused call writes
/// nothing.
#[unsafe(no_mangle)]
pub extern "C" fn towanchor_mend(text: &[u8], clean: &mut [u8], report: &mut [u8]) -> u64
    ensures value { result ≡ mend_answer text.now (length clean.old) (length report.old) }
    ensures clean_after { clean.new ≡ clean_left text.now clean.old report.old }
    ensures report_after { report.new ≡ report_left text.now clean.old report.old }
{
    mend::towanchor_mend(text, clean, report)
}
