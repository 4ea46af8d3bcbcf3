//! Prints two tables of the data sheet out of the compiled model: the mode 0 chart, and the summary of port C's pins by mode.
//! What it prints is held to the text of the sheet.
#![tactic(auto)]

mod definition;
mod summary;

use std::io;

fn main(rt: HostRuntime) -> io::Result<()> {
    definition::all(&rt)?;
    summary::all(&rt)
}
