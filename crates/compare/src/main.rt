// Runs two models of a chip over the same pseudo-random histories, the proved one and a second one that was written apart
// from it, and compares what they show, keep and count after every event: first of the 8255A and the 82C55A, then of the 8355 and of
// racks of cards. Then it compares two trimmers of journals in the same way.
#![tactic(auto)]

mod apart; // the second model
mod counts;
mod course;
mod draws;
mod events;
mod exchanges;
mod history;
mod journals; // journals, trimmed
mod ports_8355; // the 8355
mod print;
mod proved; // the proved devices
mod racks; // racks of cards
mod random;
mod row;
mod runs;
mod states;
mod twins;
mod views;

use std::io;
use std::io::Read;

// The runs of the 8255A and the 82C55A, each behind a title, by their part of the text.
fn runs_8255a(rt: &impl Print, part: &[u8]) -> io::Result<()> {
    print::run(rt, "from power-up", part, &runs::from_power_up())?;
    print::run(
        rt,
        "from arbitrary states",
        part,
        &runs::from_arbitrary_states(),
    )?;
    print::run(
        rt,
        "from power-up under other levels",
        part,
        &runs::from_other_levels(),
    )
}

// Those of the 8355.
fn runs_8355(rt: &impl Print, part: &[u8]) -> io::Result<()> {
    print::run(
        rt,
        "the 8355 from power-up",
        part,
        &ports_8355::from_power_up(),
    )?;
    print::run(
        rt,
        "the 8355 from arbitrary states",
        part,
        &ports_8355::from_arbitrary_states(),
    )
}

// Those of racks.
fn runs_of_racks(rt: &impl Print, part: &[u8]) -> io::Result<()> {
    print::run(rt, "racks with good bases", part, &racks::from_good_bases())?;
    print::run(rt, "racks with any bases", part, &racks::from_any_bases())?;
    print::run(
        rt,
        "racks in arbitrary states",
        part,
        &racks::from_arbitrary_states(),
    )
}

fn run_of_journals(rt: &(impl Print + AllocGlobal), part: &[u8]) -> io::Result<()> {
    print::run(
        rt,
        "trimmed from any power-up",
        part,
        &journals::from_any_power_up(rt.alloc())?,
    )
}

// Stands between the parts of the text.
const SEPARATOR: u8 = b'%';

// What is printed of each run stands on standard input, a part for each chip, one for racks and one for journals, with a sign for each
// count in their order.
fn main(rt: HostRuntime) -> io::Result<()> {
    let mut text = Vec::new(rt.alloc());
    rt.reader().read_to_end(&mut text)?;
    let mut parts = text.split(|code| *code == SEPARATOR);
    runs_8255a(&rt, parts.next().unwrap_or(&[]))?;
    runs_8355(&rt, parts.next().unwrap_or(&[]))?;
    runs_of_racks(&rt, parts.next().unwrap_or(&[]))?;
    run_of_journals(&rt, parts.next().unwrap_or(&[]))
}
