//! Laws of keys.

ghost use Rattle.item_key.specs.Laws.{OnePlace, OrderOfKeys};

/// Keys are ordered by time, then by the bytes of their ids.
pub fn order_of_keys()
    ensures { OrderOfKeys }
{}

/// Two items in one place are the same.
pub fn one_place()
    ensures { OnePlace }
{}
