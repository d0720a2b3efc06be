//! The lines of a text.

ghost use Rattle.std.specs.Prelude.{◌≡◌, ◌<◌, ◌⊎◌, [], ◌∷◌, ◌++◌, MatchOption, IfSome, length};
ghost use Rattle.mirror_run.specs.Lines.{lines_of};

use memchr::memchr;

/// The first line, without the line feed at its end, and the text after it; none where the text is empty.
pub fn cut_line(text: &[u8]) -> Option<(&[u8], &[u8])>
    ensures lines { MatchOption result (lines_of text.now ≡ []) (λ cut. lines_of text.now ≡ cut.0.now ∷ lines_of cut.1.now) }
    ensures parts { IfSome result (λ cut. (text.now ≡ cut.0.now ++ 10 ∷ cut.1.now) ⊎ ((text.now ≡ cut.0.now) × (cut.1.now ≡ []))) }
    ensures shorter { IfSome result (λ cut. length cut.1.now < length text.now) }
{
    if text.is_empty() {
        return None;
    }
    let Some(at) = memchr(b'\n', text) else {
        return Some(text.split_at(text.len()));
    };
    let (_, rest) = text.split_at(at + 1);
    Some((&text[..at], rest))
}
