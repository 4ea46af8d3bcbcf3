//! The answers of a rack to its script.
ghost use Rattle.std.specs.Prelude.{◌≡◌, IfOk, is_some};
ghost use Rattle.prints.specs.Printed.{printed_of_rack, refuses_rack};

use super::output::{self, Printed};
use script::racks::MOST_ROOM;
use std::alloc::{AllocError, Global};

#[tactic(auto, using(crate::proofs::AnsweredByRack::answered, crate::proofs::AnsweredByRack::refused))]
pub(super) fn answer(alloc: Global, text: &[u8]) -> Result<Printed, AllocError>
    ensures text { IfOk result (λ printed. printed.text.items ≡ printed_of_rack text.now) }
    ensures refused { IfOk result (λ printed. is_some printed.refused ≡ refuses_rack text.now) }
{
    let mut out = output::room(alloc, MOST_ROOM)?;
    match script::racks::run(text, &mut out) {
        Ok(ran) => Ok(Printed::front(out, ran.length)),
        Err(refusal) => output::refusal(alloc, refusal),
    }
}
