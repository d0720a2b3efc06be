//! Texts that are written whole.

ghost use Rattle.std.specs.Prelude.{◌≡◌, OnOk, IfErr};
ghost use Rattle.std.specs.Io.KnownBytes.{Appends};

use mirror_run::Refusal;
use std::io;
use std::io::Write;

/// Writes bytes to the end.
fn send<W: Write>(writer: &mut W, bytes: &[u8]) -> io::Result<()>
    ensures { OnOk result (Appends (W.contents writer.old) (W.contents writer.new) bytes.now) }
{
    writer.write_all(bytes)?;
    writer.flush()
}

/// Writes a text.
pub(crate) fn write_text<W: Write>(writer: &mut W, text: &str) -> Result<(), Refusal>
    ensures ok { OnOk result (Appends (W.contents writer.old) (W.contents writer.new) text.now) }
    ensures err { IfErr result (λ e. e ≡ Refusal.Write) }
{
    match send(writer, text.as_bytes()) {
        Ok(()) => Ok(()),
        Err(_) => Err(Refusal::Write),
    }
}
