// The clean form of a captured script, made by the function that hosts call, and what is said of its lines.
ghost use Rattle.std.specs.Prelude.{◌≡◌, IfOk, OnOk, is_some, string_bytes};
ghost use Rattle.text.specs.Answers.{line_of};
ghost use Rattle.prints.specs.Mended.{refuses_mending, printed_mended, said_of, said_of_all, is_unfit, has_unfit};
ghost use Rattle.towanchor.specs.Said.{Says};

use super::output::{self, Printed};
use anyhow::Context;
use mend::signs::Sign;
use script::LONGEST;
use std::alloc::{AllocError, Global};
use std::process::ExitCode;
use text::line::Line;
use text::lines::Lines;

// The clean script, or the number of the refusal. A script has no more lines than bytes, so that there is room for both outputs.
#[tactic(auto, using(crate::proofs::CleanScript::mended, crate::proofs::CleanScript::refused))]
fn clean(alloc: Global, text: &[u8]) -> Result<Printed, AllocError>
    ensures text { IfOk result (λ printed. printed.text.items ≡ printed_mended text.now) }
    ensures refused { IfOk result (λ printed. is_some printed.refused ≡ refuses_mending text.now) }
{
    let mut clean = output::room(alloc, LONGEST)?;
    let mut signs = output::room(alloc, LONGEST)?;
    match mend::mend(text, &mut clean, &mut signs) {
        Ok(mended) => Ok(Printed::front(clean, mended.clean)),
        Err(refusal) => output::refusal(alloc, refusal),
    }
}

// Says what became of a line, if it was not kept; whether it is unfit.
fn say(said: &mut String, number: usize, line: Line<'_>) -> Result<bool, AllocError>
    ensures words { OnOk result (Says said.old said.new (said_of number (line_of line.entry))) }
    ensures unfit { IfOk result (λ unfit. unfit ≡ is_unfit (line_of line.entry)) }
{
    let sign = Sign::of(line);
    if sign == Sign::Kept {
        return Ok(false);
    }
    writeln!(said, "line {number}: {sign}")?;
    Ok(matches!(sign, Sign::Unfit(_)))
}

// What is said of all lines, and whether one of them is unfit.
#[derive(Drop)]
struct Said {
    words: String,
    unfit: bool,
}

impl Said {
    fn of(alloc: Global, text: &[u8]) -> Result<Self, AllocError>
        ensures words { IfOk result (λ all. string_bytes all.words ≡ said_of_all text.now) }
        ensures unfit { IfOk result (λ all. all.unfit ≡ has_unfit text.now) }
    {
        let mut words = String::new(alloc);
        let mut unfit = false;
        for (at, line) in Lines::new(text).enumerate() {
            unfit |= say(&mut words, at + 1, line)?;
        }
        Ok(Said { words, unfit })
    }
}

// Prints the clean script, and says on standard error what became of the lines that were not kept. The program fails where a line is unfit.
pub(super) fn mend(
    rt: &(impl Print + Eprint + AllocGlobal),
    text: &[u8],
) -> anyhow::Result<ExitCode> {
    let alloc = rt.alloc();
    clean(alloc, text)?.write(rt)?;
    let said = Said::of(alloc, text)?;
    eprint!(rt; "{}", said.words).context("standard error")?;
    Ok(if said.unfit {
        ExitCode::FAILURE
    } else {
        ExitCode::SUCCESS
    })
}
