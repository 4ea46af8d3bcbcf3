// The lines of a text that are no frames, named on standard error.
ghost use Rattle.std.specs.Prelude.{◌≡◌, IfOk, OnOk, string_bytes};
ghost use Rattle.prints.specs.Strays.{strays_of, stray_line, named, more_line, said_of_strays};
ghost use Rattle.towanchor.specs.Said.{Says};

use anyhow::Context;
use std::alloc::{AllocError, Global};
use text::lines::Lines;

// How many of them are named. Of the others it is said how many they are.
const MOST_NAMED: usize = 10;

#[tactic(auto, unfolding(prints::specs::Strays::stray_line))]
fn say_line(said: &mut String, number: usize) -> Result<(), AllocError>
    ensures { OnOk result (Says said.old said.new (stray_line number)) }
{
    writeln!(said, "line {number} is no frame")
}

#[tactic(auto, unfolding(prints::specs::Strays::more_line))]
fn say_more(said: &mut String, count: usize) -> Result<(), AllocError>
    ensures { OnOk result (Says said.old said.new (more_line count)) }
{
    match count {
        0 => Ok(()),
        1 => writeln!(said, "1 more line is no frame"),
        more => writeln!(said, "{more} more lines are no frames"),
    }
}

// The numbers of such lines. Lines count from 1.
fn strays_of(alloc: Global, text: &[u8]) -> Result<Vec<usize>, AllocError>
    ensures { IfOk result (λ strays. strays.items ≡ strays_of text.now) }
{
    let mut strays = Vec::new(alloc);
    for (at, line) in Lines::new(text).enumerate() {
        if line.event().is_none() {
            strays.push(at + 1)?;
        }
    }
    Ok(strays)
}

// Lines by their numbers.
#[tactic(auto, using(crate::proofs::OneMore::none, crate::proofs::OneMore::one_more))]
fn named(alloc: Global, numbers: &[usize]) -> Result<String, AllocError>
    ensures { IfOk result (λ said. string_bytes said ≡ named numbers.now) }
{
    let mut said = String::new(alloc);
    for number in numbers {
        say_line(&mut said, *number)?;
    }
    Ok(said)
}

// The first such lines in turn, and how many more there are.
#[tactic(auto, unfolding(prints::specs::Strays::said_of_strays))]
fn said_of(alloc: Global, text: &[u8]) -> Result<String, AllocError>
    ensures { IfOk result (λ said. string_bytes said ≡ said_of_strays text.now) }
{
    let strays = strays_of(alloc, text)?;
    let mut said = named(alloc, &strays[..strays.len().min(MOST_NAMED)])?;
    say_more(&mut said, strays.len().saturating_sub(MOST_NAMED))?;
    Ok(said)
}

// Says so on standard error.
pub(super) fn name(rt: &(impl Eprint + AllocGlobal), text: &[u8]) -> anyhow::Result<()> {
    eprint!(rt; "{}", said_of(rt.alloc(), text)?).context("standard error")
}
