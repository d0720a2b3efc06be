//! The whole of an input.

ghost use Rattle.std.specs.Prelude.{◌≡◌, ◌≤◌, ◌⊎◌, length, take, IfOk, IfErr, IfSome};
ghost use Rattle.mirror_run.specs.Refused.{IsTextRefusal};

use crate::refusal::Refusal;
use std::alloc::Global;
use std::io::{ErrorKind, Read};

/// The most bytes that an input may have.
pub const LONGEST_INPUT: usize = 67_108_864;

/// All that the reader gives, up to one byte more than an input may have.
fn read_bytes<R: Read>(alloc: Global, reader: &mut R) -> Result<Vec<u8>, Refusal>
    ensures ok { IfOk result (λ v. IfSome (R.remaining reader.old) (λ input. v.items ≡ take 67108865 input)) }
    ensures err { IfErr result (λ e. (e ≡ Refusal.Read) ⊎ (e ≡ Refusal.Memory)) }
{
    let mut bytes = Vec::new(alloc);
    let mut limited = reader.take(67_108_865);
    match limited.read_to_end(&mut bytes) {
        Ok(_) => Ok(bytes),
        Err(e) if e.kind() == ErrorKind::OutOfMemory => Err(Refusal::Memory),
        Err(_) => Err(Refusal::Read),
    }
}

/// Bytes, if there aren't too many.
fn limited(bytes: Vec<u8>) -> Result<Vec<u8>, Refusal>
    ensures ok { IfOk result (λ v. (v.items ≡ bytes.items) × (length v.items ≤ 67108864)) }
    ensures err { IfErr result (IsTextRefusal bytes.items) }
{
    if bytes.len() > LONGEST_INPUT {
        return Err(Refusal::InputTooLong);
    }
    Ok(bytes)
}

/// The bytes that the reader gives, at most [`LONGEST_INPUT`].
///
/// # Errors
///
/// `Read`, `InputTooLong` and `Memory`.
pub fn read_all<R: Read>(alloc: Global, reader: &mut R) -> Result<Vec<u8>, Refusal>
    ensures ok { IfOk result (λ v. IfSome (R.remaining reader.old) (λ input. v.items ≡ input)) }
    ensures short { IfOk result (λ v. length v.items ≤ 67108864) }
    ensures err { IfErr result (λ e. IfSome (R.remaining reader.old) (λ input. IsTextRefusal input e)) }
{
    match read_bytes(alloc, reader) {
        Ok(bytes) => limited(bytes),
        Err(refusal) => Err(refusal),
    }
}
