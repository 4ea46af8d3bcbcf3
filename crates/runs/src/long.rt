//! Texts as long as a script may be, and longer by one byte.
use super::show;
use chip::Edition;
use std::io;

// So many blank lines into an output of that size, and how many of its bytes are the dots that they were.
fn blank_lines(rt: &(impl Print + AllocGlobal), count: usize, size: usize) -> io::Result<()> {
    let text = vec![in rt.alloc(); b'\n'; count]?;
    let mut out = vec![in rt.alloc(); b'.'; size]?;
    show::ran(rt, script::run(Edition::Older, &text, &mut out))?;
    let untouched = out.iter().filter(|byte| **byte == b'.').count();
    println!(rt; "{untouched} bytes of the output as they were")
}

pub(super) fn all(rt: &(impl Print + AllocGlobal)) -> io::Result<()> {
    show::title(
        rt,
        "4,096 bytes of blank lines, with room and without, and 4,097",
    )?;
    blank_lines(rt, 4096, 45056)?;
    blank_lines(rt, 4096, 45055)?;
    blank_lines(rt, 4097, 45056)?;
    blank_lines(rt, 4097, 0)?;
    blank_lines(rt, 4000, 45056)
}
