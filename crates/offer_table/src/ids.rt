//! A walk over the ids of a table.

ghost use Rattle.std.specs.Prelude.{◌≡◌, length, map};
ghost use Rattle.std.specs.Iterator.{at_most};
ghost use Rattle.std.specs.Map.Iter.{deref, TakesFirst};

use crate::RelaySet;
use item_key::Id;
use std::iter::Iterator;
use std::marker::Model;

/// The offered ids of a table that are left to walk over, ascending.
#[derive(Drop)]
pub struct Ids<'a> {
    offers: &'a [(Id, RelaySet)],
}

impl<'a> Model for Ids<'a> {
    ghost use Rattle.std.specs.Prelude.{List, map};
    ghost use Rattle.item_key.specs.declared.Id.{Id};

    ghost Value = { List Id };

    ghost view = { λ s. map (λ o. o.0) s.offers.now };
}

impl<'a> Ids<'a> {
    /// The ids of these offers.
    pub(crate) fn of(offers: &'a [(Id, RelaySet)]) -> Ids<'a>
        ensures { result ≡ map (λ o. o.0) offers.now }
    {
        Ids { offers }
    }
}

impl<'a> Iterator for Ids<'a> {
    type Item = &'a Id;

    ghost next_gives = { TakesFirst deref };

    ghost remaining = { λ s. at_most (length s) };

    fn next(&mut self) -> Option<&'a Id> {
        let (first, others) = self.offers.split_first()?;
        self.offers = others;
        Some(&first.0)
    }
}
