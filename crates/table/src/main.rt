//! Holds the compiled lookup to the published table of port C roles, which this program alone has: at each of the 65,536 pairs of a word
//! and a pin that two bytes can name. For each answer that there can be it prints to how many pairs the table gives it, to how many the
//! lookup does, and to how many both do.
#![tactic(auto)]

mod counts;
mod entries;
mod reading;

use counts::Counts;
use std::io;

// The answers that there can be, by number, as the published table has them, with what each says of a pin. The numbers are written out, and not
// taken from the crate that is held to the table.
const ANSWERS: [(&str, u8); 8] = [
    ("input", 0),
    ("output", 1),
    ("INTR", 2),
    ("IBF", 3),
    ("OBF", 4),
    ("STB", 5),
    ("ACK", 6),
    ("none", 255),
];

fn main(rt: HostRuntime) -> io::Result<()> {
    println!(rt; "role\tanswer\ttable\tlookup\tboth")?;
    for (name, answer) in ANSWERS {
        println!(rt; "{name}\t{answer}\t{}", Counts::of(answer))?;
    }
    Ok(())
}
