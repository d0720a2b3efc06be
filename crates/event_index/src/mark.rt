//! Marks, short numbers that stand for what filters ask of an event: its author, its kind, a tag's first value.
ghost use Rattle.std.specs.Prelude.{◌≡◌, ◌<◌, ◌^◌, IfSome};
ghost use Rattle.event_index.specs.Marks.{mixed, value_mark, tag_mark};

use nostr_event::Tag;

// A mark is below this.
const MARKS: u64 = 1 << 44;

// A prime. A mark times this, and a byte, is still a number of 64 bits.
const FACTOR: u64 = 1_048_573;

// Goes on with a mark over more bytes.
fn mixed(start: u64, bytes: &[u8]) -> u64
    requires { start < 2 ^ 44 }
    ensures value { result ≡ mixed start bytes.now }
    ensures below { result < 2 ^ 44 }
{
    let mut mark = start;
    for byte in bytes {
        mark = (mark * FACTOR + *byte as u64) % MARKS;
    }
    mark
}

/// The mark of an author.
pub fn author_mark(pubkey: &[u8; 32]) -> u64
    ensures value { result ≡ mixed 0 pubkey.now }
    ensures below { result < 2 ^ 44 }
{
    mixed(0, pubkey)
}

/// The mark of a value behind a tag's letter.
pub fn value_mark(letter: u8, value: &str) -> u64
    ensures value { result ≡ value_mark letter value.now }
    ensures below { result < 2 ^ 44 }
{
    mixed(letter as u64, value.as_bytes())
}

/// The mark of a tag, if its name is one byte and a value stands behind it.
pub fn tag_mark(tag: &Tag<'_>) -> Option<u64>
    ensures value { result ≡ tag_mark tag.now }
    ensures below { IfSome result (λ m. m < 2 ^ 44) }
{
    let (name, values) = tag.split_first()?;
    let (value, _) = values.split_first()?;
    match name.as_bytes() {
        [letter] => Some(value_mark(*letter, value)),
        _ => None,
    }
}
