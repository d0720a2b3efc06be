//! Which item comes first.

ghost use Rattle.std.specs.Prelude.{◌≡◌, nat_lt};
ghost use Rattle.item_key.specs.Keys.{place};

use item_key::Item;

/// Whether an item stands before another.
pub fn is_before(a: &Item, b: &Item) -> bool
    ensures { result ≡ nat_lt (place a.now) (place b.now) }
{
    a.compare(b).is_lt()
}
