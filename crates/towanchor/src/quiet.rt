// What each group's INTR is doing after the last line of a script, and why, in plain words. include/towanchor.h has the same words for
// hosts in C.
ghost use Rattle.std.specs.Prelude.{◌≡◌, IfOk, OnOk, is_some, string_bytes};
ghost use Rattle.script.specs.Run.{too_long};
ghost use Rattle.prints.specs.Left.{left_of};
ghost use Rattle.prints.specs.Quiet.{reason_words, group_name, side_name, half_line, group_lines, refused_line, said_of_left, printed_quiet};
ghost use Rattle.towanchor.specs.Left.{told};
ghost use Rattle.towanchor.specs.Said.{Says};

use super::output::Printed;
use super::refusals::TOO_LONG;
use chip::channel::Side;
use chip::reasons::{Explained, Reason};
use chip::{Chip, Edition, Levels};
use control::Group;
use script::{RunRefusal, left};
use std::alloc::{AllocError, Global};

// A function and no `Display` of the reason: the words depend on the side too.
fn words(side: Side, reason: Reason) -> &'static str
    ensures { result.now ≡ reason_words side reason }
{
    match (reason, side) {
        (Reason::EnableOff, _) => "low, the interrupt is not enabled",
        (Reason::FlagWrong, Side::Input) => "low, no byte is waiting to be read",
        (Reason::FlagWrong, Side::Output) => "low, the last byte has not been taken",
        (Reason::LineLow, Side::Input) => "low, the strobe line is low",
        (Reason::LineLow, Side::Output) => "low, the acknowledge line is low",
        (Reason::OwnCycle, Side::Input) => "low, a read of the port is running",
        (Reason::OwnCycle, Side::Output) => "low, a write to the port is running",
        (Reason::High, _) => "high",
    }
}

fn name(group: Group) -> &'static str
    ensures { result.now ≡ group_name group }
{
    match group {
        Group::A => "A",
        Group::B => "B",
    }
}

fn half_name(side: Side) -> &'static str
    ensures { result.now ≡ side_name side }
{
    match side {
        Side::Input => "input",
        Side::Output => "output",
    }
}

// Says what a half is doing.
#[tactic(auto, unfolding(prints::specs::Quiet::half_line))]
fn say_half(said: &mut String, group: Group, side: Side, reason: Reason) -> Result<(), AllocError>
    ensures { OnOk result (Says said.old said.new (half_line group side reason)) }
{
    writeln!(
        said,
        "group {}, {}: {}",
        name(group),
        half_name(side),
        words(side, reason)
    )
}

// Says what a group's INTR is doing.
#[tactic(auto, unfolding(prints::specs::Quiet::group_lines))]
fn say_group(said: &mut String, group: Group, explained: Explained) -> Result<(), AllocError>
    ensures { OnOk result (Says said.old said.new (group_lines group explained)) }
{
    match explained {
        Explained::ModeZero => {
            writeln!(
                said,
                "group {}: there is no INTR, the group is in mode 0",
                name(group)
            )
        }
        Explained::InputHalf(reason) => say_half(said, group, Side::Input, reason),
        Explained::OutputHalf(reason) => say_half(said, group, Side::Output, reason),
        Explained::BothHalves(input, output) => {
            say_half(said, group, Side::Input, input)?;
            say_half(said, group, Side::Output, output)
        }
    }
}

// What a script leaves: the chip, and how many of its lines were refused.
#[derive(Clone, Copy)]
struct Left {
    chip: Chip,
    refused: usize,
}

// A script meets a chip of the older edition, with every line high.
fn left_by(text: &[u8]) -> Result<Left, RunRefusal>
    ensures { told result ≡ left_of text.now }
{
    let mut chip = Chip::new(Edition::Older, Levels::HIGH);
    let refused = left::take_all(&mut chip, text)?;
    Ok(Left { chip, refused })
}

// Says how many lines were refused, if any was: such a script may have left another chip than its writer had in mind.
#[tactic(auto, unfolding(prints::specs::Quiet::refused_line))]
fn say_refused(said: &mut String, count: usize) -> Result<(), AllocError>
    ensures { OnOk result (Says said.old said.new (refused_line count)) }
{
    if count == 0 {
        return Ok(());
    }
    writeln!(
        said,
        "lines that were refused, and changed nothing: {count}"
    )
}

// What is said of the chip that a script leaves.
#[tactic(auto, unfolding(prints::specs::Quiet::said_of_left))]
fn of_left(alloc: Global, left: Left) -> Result<String, AllocError>
    ensures { IfOk result (λ said. string_bytes said ≡ said_of_left left.chip left.refused) }
{
    let mut said = String::new(alloc);
    say_group(&mut said, Group::A, left.chip.explain(Group::A))?;
    say_group(&mut said, Group::B, left.chip.explain(Group::B))?;
    say_refused(&mut said, left.refused)?;
    Ok(said)
}

// Where the text is too long, that is said in place of all this.
#[tactic(auto, using(crate::proofs::Explained::of_a_run, crate::proofs::Explained::of_none))]
pub(super) fn explain(alloc: Global, text: &[u8]) -> Result<Printed, AllocError>
    ensures text { IfOk result (λ printed. printed.text.items ≡ printed_quiet text.now) }
    ensures refused { IfOk result (λ printed. is_some printed.refused ≡ too_long text.now) }
{
    match left_by(text) {
        Ok(left) => Ok(Printed {
            text: of_left(alloc, left)?.into_bytes(),
            refused: None,
        }),
        Err(refusal) => Ok(Printed {
            text: format!(in alloc; "{TOO_LONG}\n")?.into_bytes(),
            refused: Some(refusal.into()),
        }),
    }
}
