//! The texts of inputs.

ghost use Rattle.std.specs.Prelude.{◌≡◌, ◌≤◌, length, IfOk, IfErr, IsUtf8};
ghost use Rattle.mirror_run.specs.Refused.{IsTextRefusal};

use mirror_run::Refusal;

/// The text of an input's bytes. A plan text has no byte but of ASCII, so that only bytes that are refused are looked at
/// for whether they are a text at all, which comes first.
pub(crate) fn text_of(bytes: &[u8]) -> Result<&str, Refusal>
    requires { length bytes.now ≤ 67108864 }
    ensures text { IfOk result (λ text. text.now ≡ bytes.now) }
    ensures utf8 { IfOk result (λ _. IsUtf8 bytes.now) }
    ensures err { IfErr result (IsTextRefusal bytes.now) }
{
    match str::from_utf8(bytes) {
        Ok(text) => Ok(text),
        Err(_) => Err(Refusal::NotUtf8),
    }
}
