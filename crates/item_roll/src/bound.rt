//! The minimal bound between two items.

ghost use Rattle.std.specs.Prelude.{◌≡◌, ◌+◌, ◌-◌, ◌++◌, ◌<◌, ◌≤◌, take, replicate};
ghost use Rattle.item_key.specs.Keys.{number_of_bytes, place, endless};
ghost use Rattle.neg_codec.specs.Ranges.{edge_of};
ghost use Rattle.item_roll.specs.Splits.{common_len, minimal_bound_of};

use item_key::{Id, Item, Key};
use neg_codec::Bound;

/// How many first bytes are the same.
fn common_bytes(a: &[u8; 32], b: &[u8; 32]) -> usize
    ensures { result ≡ common_len a.now b.now }
{
    for i in 0..32 {
        if a[i] != b[i] {
            return i;
        }
    }
    32
}

/// As many first bytes of the second id as tell the two apart, then zeros.
fn front_apart(first: &[u8; 32], second: &[u8; 32]) -> [u8; 32]
    requires { number_of_bytes first.now < number_of_bytes second.now }
    ensures { let n = common_len first.now second.now + 1 in result ≡ take n second.now ++ replicate (32 - n) 0 }
{
    let len = common_bytes(first, second) + 1;
    let mut id = [0; 32];
    id[..len].copy_from_slice(&second[..len]);
    id
}

/// The minimal bound above the first item and not above the second (Negentropy protocol V1,
/// "Bound"): the second's time alone where the times differ, else its time and as many
/// first bytes of its id as tell the two apart.
pub fn minimal_bound(first: &Item, second: &Item) -> Bound
    requires order { place first.now < place second.now }
    requires first { first.now.time < endless }
    requires second { second.now.time < endless }
    ensures value { edge_of result ≡ minimal_bound_of first.now second.now }
    ensures above { place first.now < place (edge_of result) }
    ensures upto { place (edge_of result) ≤ place second.now }
{
    let _ = first.id.as_bytes();
    let _ = second.id.as_bytes();
    let id = if first.time == second.time {
        front_apart(&first.id.0, &second.id.0)
    } else {
        [0; 32]
    };
    Bound::At(Key::new(second.time, Id(id)))
}
