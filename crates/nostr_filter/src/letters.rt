// The letters of conditions on tags.
ghost use Rattle.std.specs.Prelude.{◌≡◌};
ghost use Rattle.nostr_filter.specs.Tags.{are_in_order};

use crate::conditions::TagCondition;

/// The letters that a condition may have, in the order of their codes.
pub const LETTERS: &[u8; 52] = b"ABCDEFGHIJKLMNOPQRSTUVWXYZabcdefghijklmnopqrstuvwxyz";

// Whether the conditions' letters are letters, and ascend.
pub fn is_in_order(list: &[TagCondition]) -> bool
    ensures { result ≡ are_in_order list.now }
{
    let mut next = 0;
    for letter in LETTERS {
        if next < list.len() && list[next].letter == *letter {
            next += 1;
        }
    }
    next == list.len()
}
