//! The answers to a script.
ghost use Rattle.std.specs.Prelude.{◌≡◌, IfOk, is_some, length};
ghost use Rattle.script.specs.Answers.{answer_width};
ghost use Rattle.script.specs.Run.{run_told, ran_of, too_long};
ghost use Rattle.prints.specs.Printed.{printed};
ghost use Rattle.towanchor.specs.ByDevice.{output_by};

use super::output::{self, Printed};
use chip::Edition;
use prints::Device;
use script::{ANSWER_WIDTH, LONGEST, RunRefusal};
use std::alloc::{AllocError, Global};

// Enough for the answers to all the lines that a script can have.
const MOST_ROOM: usize = ANSWER_WIDTH * LONGEST;

// The run of a script on that device, from its power-up.
fn run(device: Device, text: &[u8], out: &mut [u8]) -> Result<usize, RunRefusal>
    ensures told { run_told result ≡ ran_of answer_width text.now (length out.old) }
    ensures output { out.new ≡ output_by device text.now out.old }
{
    match device {
        Device::I8255A => script::run(Edition::Older, text, out),
        Device::I82C55A => script::run(Edition::Newer, text, out),
        Device::I8355 => script::run_8355(text, out),
    }
}

// The answers of that device; or the number of the refusal, where the text is too long.
#[tactic(auto, using(crate::proofs::Answered::answered, crate::proofs::Answered::refused))]
pub(super) fn answer(alloc: Global, device: Device, text: &[u8]) -> Result<Printed, AllocError>
    ensures text { IfOk result (λ answers. answers.text.items ≡ printed device text.now) }
    ensures refused { IfOk result (λ answers. is_some answers.refused ≡ too_long text.now) }
{
    let mut out = output::room(alloc, MOST_ROOM)?;
    match run(device, text, &mut out) {
        Ok(lines) => Ok(Printed::front(out, ANSWER_WIDTH * lines)),
        Err(refusal) => output::refusal(alloc, refusal),
    }
}
