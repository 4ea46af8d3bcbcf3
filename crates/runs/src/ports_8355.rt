//! A script of the 8355: nine lines, 99 bytes of answers. Port B is loaded before its direction is set, and read; then come three refusals.
use super::show;
use std::io;

const SCRIPT: &[u8] = b"03015A\n02\n0303FF\n02\n0101\n02\n0102\n0502AA\n04\n";

pub(super) fn all(rt: &(impl Print + AllocGlobal)) -> io::Result<()> {
    show::title(
        rt,
        "the 8355: 99 bytes of output, one less, none, and more; a blank line and a rest; no text",
    )?;
    for size in [99, 98, 0, 120] {
        show::run_8355(rt, SCRIPT, size)?;
    }
    show::run_8355(rt, b"\n0500AB", 22)?;
    show::run_8355(rt, b"", 5)
}
