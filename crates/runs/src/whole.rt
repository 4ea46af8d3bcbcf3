//! The rules' own script: twelve lines, 132 bytes of answers.
use super::show;
use std::io;

const SCRIPT: &[u8] = b"0303B0\n02\n030309\n02\n050041\n0502EF\n0502FF\n0100\n0100\n02\n0103\n07\n";

pub(super) fn all(rt: &(impl Print + AllocGlobal)) -> io::Result<()> {
    show::title(
        rt,
        "the whole case: 132 bytes of output, one less, and more",
    )?;
    for size in [132, 131, 0, 160] {
        show::run(rt, SCRIPT, size)?;
    }
    Ok(())
}
