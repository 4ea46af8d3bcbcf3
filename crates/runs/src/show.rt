//! One run, shown: its number, the lines that it counts, and the output, which was full of dots.
use bus::refusals;
use chip::Edition;
use script::RunRefusal;
use std::io;

pub(super) fn title(rt: &impl Print, text: &str) -> io::Result<()> {
    println!(rt; "\n== {text}")
}

pub(super) fn ran(rt: &impl Print, ran: Result<usize, RunRefusal>) -> io::Result<()> {
    println!(rt;
        "number {}, lines {}",
        refusals::number(&ran),
        ran.unwrap_or(0)
    )
}

// What a run gave back, and what it left in the output.
fn left(rt: &impl Print, gave: Result<usize, RunRefusal>, out: &[u8]) -> io::Result<()> {
    ran(rt, gave)?;
    rt.write_all(out)?;
    println!(rt; "|")
}

/// A text run on an 8255A into an output of that size.
pub(super) fn run(rt: &(impl Print + AllocGlobal), text: &[u8], size: usize) -> io::Result<()> {
    let mut out = vec![in rt.alloc(); b'.'; size]?;
    left(rt, script::run(Edition::Older, text, &mut out), &out)
}

pub(super) fn run_8355(
    rt: &(impl Print + AllocGlobal),
    text: &[u8],
    size: usize,
) -> io::Result<()> {
    let mut out = vec![in rt.alloc(); b'.'; size]?;
    left(rt, script::run_8355(text, &mut out), &out)
}
