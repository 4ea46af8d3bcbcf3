// What the program prints, and standard output.
ghost use Rattle.std.specs.Prelude.{◌≡◌, true, false, IfOk, is_some, take, vec_len};
ghost use Rattle.prints.specs.Printed.{refusal_text};

use super::refusals::Refused;
use anyhow::Context;
use bus::refusals::Numbered;
use std::alloc::{AllocError, Global};
use text::{LF, digits};

// What is printed of a text, and why the whole of it was refused, where it was.
#[derive(Drop)]
pub(super) struct Printed {
    pub text: Vec<u8>,
    pub refused: Option<Refused>,
}

impl Printed {
    // The front of an output, so many bytes of it.
    pub(super) fn front(mut out: Vec<u8>, length: usize) -> Self
        ensures text { result.text.items ≡ take length out.items }
        ensures refused { is_some result.refused ≡ false }
    {
        out.truncate(length);
        Printed {
            text: out,
            refused: None,
        }
    }

    // Writes it to standard output. Where the whole text was refused, the program fails, and says why.
    pub(super) fn write(&self, rt: &impl Print) -> anyhow::Result<()> {
        rt.write_all(&self.text).context("standard output")?;
        match self.refused {
            None => Ok(()),
            Some(why) => Err(why.into()),
        }
    }
}

// An output with room for so many bytes.
pub(super) fn room(alloc: Global, size: usize) -> Result<Vec<u8>, AllocError>
    ensures { IfOk result (λ out. vec_len out ≡ size) }
{
    vec![in alloc; 0; size]
}

// The number of a refusal, in two digits, and LF.
pub(super) fn refusal<R: Numbered + Into<Refused>>(
    alloc: Global,
    refusal: R,
) -> Result<Printed, AllocError>
    ensures text { IfOk result (λ line. line.text.items ≡ refusal_text (R.number_of refusal)) }
    ensures refused { IfOk result (λ line. is_some line.refused ≡ true) }
{
    let [high, low] = digits::of_byte(refusal.number());
    Ok(Printed {
        text: vec![in alloc; high, low, LF]?,
        refused: Some(refusal.into()),
    })
}
