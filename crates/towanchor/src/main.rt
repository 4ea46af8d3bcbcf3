// The program: answers the script that stands on standard input, as an 8255A, by the word --82c55a as an 82C55A, by the word --8355 as an
// 8355, or by the word --rack as a rack of cards; or, by the word --quiet, says why the interrupts are quiet after it; or, by the word
// --trim, prints those of its lines that change the chip; or, by the word --mend, makes a clean script of one that was typed or captured.
#![tactic(auto)]

mod answers;
mod input;
mod mending;
mod output;
mod quiet;
mod racks;
mod refusals;
mod strays;
mod trim;

use prints::Device;
use std::process::ExitCode;
use std::rt::Env;

// What the first word asks for.
#[derive(Clone, Copy)]
enum Asked {
    Answers(Device),
    RackAnswers,
    WhyQuiet,
    WhatChanges,
    CleanScript,
}

// The room is just that of the longest word: a longer one does not fit, and comes as none. Any other word is as none.
fn first_word(rt: &impl Env) -> Asked {
    let mut room = [0; 8];
    let word = match rt.arg(1, &mut room) {
        Ok(length) => &room[..length],
        Err(_) => &[],
    };
    match word {
        b"--quiet" => Asked::WhyQuiet,
        b"--82c55a" => Asked::Answers(Device::I82C55A),
        b"--8355" => Asked::Answers(Device::I8355),
        b"--rack" => Asked::RackAnswers,
        b"--trim" => Asked::WhatChanges,
        b"--mend" => Asked::CleanScript,
        _ => Asked::Answers(Device::I8255A),
    }
}

fn run(rt: &(impl Env + Input + Print + Eprint + AllocGlobal)) -> anyhow::Result<ExitCode> {
    let alloc = rt.alloc();
    let text = input::read(rt)?;
    match first_word(rt) {
        Asked::Answers(device) => answers::answer(alloc, device, &text)?.write(rt)?,
        Asked::RackAnswers => racks::answer(alloc, &text)?.write(rt)?,
        Asked::WhyQuiet => quiet::explain(alloc, &text)?.write(rt)?,
        Asked::WhatChanges => trim::trim(rt, &text)?,
        Asked::CleanScript => return mending::mend(rt, &text),
    }
    Ok(ExitCode::SUCCESS)
}

// A failure is said under the program's name, with what it failed at and why, as "standard output: No space left on device".
fn main(rt: HostRuntime) -> ExitCode {
    match run(&rt) {
        Ok(status) => status,
        Err(error) => {
            // Where standard error fails too, the status alone tells.
            let _ = eprintln!(rt; "towanchor: {error:#}");
            ExitCode::FAILURE
        }
    }
}
