// Runs the compiled models through the cases that stand on standard input. Their text is copied out as it is; the signs in it,
// which signs.rt explains, run events and show what the device then is.
#![tactic(auto)]

mod answers;
mod devices;
mod letters;
mod phases;
mod racks;
mod show;
mod show_8355;
mod signs;
mod states;
mod states_8355;

use std::io;
use std::io::Read;

fn main(rt: HostRuntime) -> io::Result<()> {
    let mut text = Vec::new(rt.alloc());
    rt.reader().read_to_end(&mut text)?;
    signs::follow(&rt, &text)
}
