//! Runs the compiled library over texts and outputs of chosen lengths, and shows what each run gave back and left in the output.
#![tactic(auto)]

mod long;
mod ports_8355;
mod show;
mod whole;

use std::io;

fn short(rt: &(impl Print + AllocGlobal)) -> io::Result<()> {
    show::title(rt, "lines that are no frames, and frames between them")?;
    show::run(
        rt,
        b"\n07\n01\n010\n010000\n0000\n0200\n0g00\n01 0\n 0100\n0100\n",
        121,
    )?;
    show::title(rt, "small letters, and a line that ends with CR")?;
    show::run(rt, b"0502ef\n0502EF\n0a\n0100\r\n02\r\n", 60)?;
    show::title(
        rt,
        "a rest without LF: torn, well formed, and blank lines only",
    )?;
    show::run(rt, b"0100\n02\n01", 40)?;
    show::run(rt, b"0100", 20)?;
    show::run(rt, b"0", 11)?;
    show::run(rt, b"\n\n", 30)?;
    show::title(
        rt,
        "every kind, with its operands, one too many and one too few",
    )?;
    show::run(rt, b"00\n0102\n02\n030341\n02\n050055\n", 66)?;
    show::run(rt, b"0000\n010200\n0200\n03034100\n05005500\n", 55)?;
    show::run(rt, b"0\n01\n0\n0303\n0500\n", 55)?;
    show::run(rt, b"04\n0400\n06\n060000\nFF\n", 55)?;
    show::title(rt, "no text")?;
    show::run(rt, b"", 0)?;
    show::run(rt, b"", 10)
}

fn main(rt: HostRuntime) -> io::Result<()> {
    whole::all(&rt)?;
    short(&rt)?;
    long::all(&rt)?;
    ports_8355::all(&rt)
}
