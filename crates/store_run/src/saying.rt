//! What a job prints.

ghost use Rattle.std.specs.Prelude.{OnOk};
ghost use Rattle.std.specs.Io.KnownBytes.{Appends};

use crate::refusal::{Refusal, write_refusal};
use std::io::Write;

/// Writes a text, and waits until it is written.
pub fn say<W: Write>(writer: &mut W, text: &str) -> Result<(), Refusal>
    ensures { OnOk result (Appends (W.contents writer.old) (W.contents writer.new) text.now) }
{
    match writer.write_all(text.as_bytes()) {
        Ok(()) => {}
        Err(error) => return Err(write_refusal(&error)),
    }
    match writer.flush() {
        Ok(()) => Ok(()),
        Err(error) => Err(write_refusal(&error)),
    }
}
