// Runs of bytes that stand for themselves in a string.
ghost use Rattle.std.specs.Prelude.{◌≡◌, ◌≤◌, true, length, take};
ghost use Rattle.std.specs.List.{list_all};
ghost use Rattle.nostr_event.specs.Runs.{is_plain};

/// How many bytes are looked at together.
const BLOCK: usize = 16;

#[inline(always)]
fn is_plain(byte: u8) -> bool
    ensures { result ≡ is_plain byte }
{
    (byte >= 32) & (byte != b'"') & (byte != b'\\')
}

// Whether each byte is plain. All are looked at, so that at a fixed length this becomes vector code.
#[inline(always)]
fn are_plain(bytes: &[u8]) -> bool
    ensures { result ≡ list_all is_plain bytes.now }
{
    let mut are_plain = true;
    for byte in bytes {
        are_plain &= is_plain(*byte);
    }
    are_plain
}

// How many bytes the blocks have that come first and are plain.
#[inline(always)]
fn plain_blocks(bytes: &[u8]) -> usize
    ensures bound { result ≤ length bytes.now }
    ensures plain { list_all is_plain (take result bytes.now) ≡ true }
{
    let mut len = 0;
    while bytes.len() - len >= BLOCK && are_plain(&bytes[len..len + BLOCK]) {
        len += BLOCK;
    }
    len
}

// How many plain bytes come first.
pub fn plain_len(bytes: &[u8]) -> usize
    ensures bound { result ≤ length bytes.now }
    ensures plain { list_all is_plain (take result bytes.now) ≡ true }
{
    let mut len = plain_blocks(bytes);
    while len < bytes.len() && is_plain(bytes[len]) {
        len += 1;
    }
    len
}
