//! The lines of a text.

ghost use Rattle.std.specs.Prelude.{◌≡◌, ◌+◌, ◌<◌, ◌∷◌, IfSome, IfNone, length};
ghost use Rattle.plan_check.specs.TextLines.{lines_of, ended, IsEnded, FirstIsNot};

use memchr::memchr;

/// The first line, without the line feed at its end, and the text after it; none where no line feed comes.
pub fn cut_line(text: &[u8]) -> Option<(&[u8], &[u8])>
    ensures lines { IfSome result (λ cut. lines_of text.now ≡ ended cut.0.now ∷ lines_of cut.1.now) }
    ensures shorter { IfSome result (λ cut. length cut.0.now + length cut.1.now < length text.now) }
    ensures none { IfNone result (FirstIsNot IsEnded (lines_of text.now)) }
{
    let Some(at) = memchr(b'\n', text) else {
        return None;
    };
    let (_, rest) = text.split_at(at + 1);
    Some((&text[..at], rest))
}
