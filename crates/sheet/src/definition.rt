//! The mode 0 chart, row by row, as the compiled table has it. The bits of a row are plain arithmetic here, apart from the model's own.
use control::chart;
use std::io;

fn direction(input: bool) -> &'static str {
    if input { "INPUT" } else { "OUTPUT" }
}

// The row for the four bits of k, which a mode word has at 4, 3, 1 and 0.
fn row(rt: &impl Print, k: u8) -> io::Result<()> {
    let found = chart::row(128 + k / 4 % 4 * 8 + k % 4);
    println!(rt;
        "{}\t{}\t{}\t{}\t{}\t{}\t{k}\t{}\t{}",
        k / 8 % 2,
        k / 4 % 2,
        k / 2 % 2,
        k % 2,
        direction(found.a),
        direction(found.upper),
        direction(found.b),
        direction(found.lower)
    )
}

/// Prints the chart under its headings.
pub(super) fn all(rt: &impl Print) -> io::Result<()> {
    println!(rt;
        "MODE 0 PORT DEFINITION\nD4\tD3\tD1\tD0\tPort A\tPort C (Upper)\t#\tPort B\tPort C (Lower)"
    )?;
    for k in 0..16 {
        row(rt, k)?;
    }
    Ok(())
}
