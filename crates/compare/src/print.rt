// What is printed of a run.
use super::row::{Difference, Row};
use std::fmt::Debug;
use std::io;

// Where the first difference is, and then, of the proved model and of the second one, all that was compared.
fn difference<V: Debug>(rt: &impl Print, first: &Difference<V>) -> io::Result<()> {
    println!(rt;
        "first difference: {} {} {}\n{:?}\n{:?}",
        first.history, first.place, first.event, first.one, first.other
    )
}

// A text with the counts put in one after the other, each where a number sign is.
fn filled(rt: &impl Print, text: &[u8], counts: &[u64]) -> io::Result<()> {
    let mut counts = counts.iter();
    for code in text {
        let count = if *code == b'#' { counts.next() } else { None };
        match count {
            Some(count) => print!(rt; "{count}")?,
            None => rt.write_all(&[*code])?,
        }
    }
    Ok(())
}

pub(super) fn run<V: Debug, const N: usize>(
    rt: &impl Print,
    title: &str,
    text: &[u8],
    row: &Row<V, N>,
) -> io::Result<()> {
    if let Some(first) = &row.first {
        difference(rt, first)?;
    }
    print!(rt; "{title}")?;
    filled(rt, text, &row.counts)?;
    if row.out_of_place != 0 {
        println!(rt;
            "  counted at places that do not exist: {}",
            row.out_of_place
        )?;
    }
    Ok(())
}
