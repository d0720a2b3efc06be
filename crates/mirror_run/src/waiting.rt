//! A writer, and bytes that wait to be written.

ghost use Rattle.std.specs.Prelude.{◌≡◌, [], OnOk};
ghost use Rattle.std.specs.Io.KnownBytes.{Appends};
ghost use Rattle.mirror_run.specs.Waiting.{Sends};

use std::io;
use std::io::Write;

/// Writes what waits.
pub fn send<W: Write>(out: &mut W, wait: &mut Vec<u8>) -> io::Result<()>
    ensures written { OnOk result (Appends (W.contents out.old) (W.contents out.new) wait.old.items) }
    ensures empty { OnOk result (wait.new.items ≡ []) }
{
    out.write_all(wait.as_slice())?;
    wait.clear();
    Ok(())
}

/// Writes bytes, or lets them wait where they find room.
pub fn put<W: Write>(out: &mut W, wait: &mut Vec<u8>, bytes: &[u8]) -> io::Result<()>
    ensures { OnOk result (Sends (W.contents out.old) wait.old.items (W.contents out.new) wait.new.items bytes.now) }
{
    if bytes.len() > wait.capacity() - wait.len() {
        send(out, wait)?;
        if bytes.len() > wait.capacity() {
            return out.write_all(bytes);
        }
    }
    let Ok(()) = wait.extend_from_slice(bytes) else {
        unreachable!();
    };
    Ok(())
}
