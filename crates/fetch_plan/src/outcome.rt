//! Plans.

ghost use Rattle.std.specs.Prelude.{◌≡◌, ◌<◌, Some, length};
ghost use Rattle.std.specs.List.{slice_get};
ghost use Rattle.sharing.specs.Offers.{beside};
ghost use Rattle.fetch_plan.specs.Plan.{IsPlan, planned_load};

use item_key::Id;
use offer_table::{Bases, RelaySet};
use sharing::{RELAYS, SLOTS};
use std::marker::Model;

/// Which relay each offered id is given to, what the relays' loads begin with, the greatest load, and a group of
/// relays which shows that no sharing has less.
pub struct Plan {
    pub(crate) bases: Bases,
    pub(crate) gives: Vec<(Id, u16)>,
    pub(crate) loads: [u64; SLOTS],
    pub(crate) least_max: u64,
    pub(crate) group: RelaySet,
}

// By hand, as a derived one is proved anew wherever a value is dropped.
impl Drop for Plan {
    fn drop(self) {
        let Self {
            bases: _,
            gives: _,
            loads: _,
            least_max: _,
            group: _,
        } = self;
    }
}

impl Model for Plan {
    ghost use Rattle.std.specs.Prelude.{◌≡◌, ◌<◌, ℕ, slice_index};
    ghost use Rattle.sharing.specs.declared.TheConstants.{RELAYS};
    ghost use Rattle.fetch_plan.specs.Plan.{Planned, IsPlan, planned_load};

    ghost Value = { Planned };

    ghost view = { λ p. record { bases = p.bases; gives = p.gives.items; least_max = p.least_max; group = p.group } };

    ghost invariant = { λ p. IsPlan (record { bases = p.bases; gives = p.gives.items; least_max = p.least_max; group = p.group }) × ((r : ℕ) → r < RELAYS → slice_index p.loads r ≡ planned_load (record { bases = p.bases; gives = p.gives.items; least_max = p.least_max; group = p.group }) r) };
}

impl Plan {
    /// The number of ids.
    pub fn len(&self) -> usize
        ensures value { result ≡ length self.now.gives }
        ensures plan { IsPlan self.now }
    {
        self.gives.len()
    }

    /// The id at a place, in ascending order, and the relay that it is given to.
    pub fn cell(&self, i: usize) -> (Id, u16)
        requires { i < length self.now.gives }
        ensures { slice_get self.now.gives i ≡ Some result }
    {
        self.gives[i]
    }

    /// The relay that an id is given to, if it is in the plan.
    pub fn relay_of(&self, id: &Id) -> Option<u16>
        ensures { result ≡ beside self.now.gives id.now }
    {
        match self.gives.binary_search_by_key(id, |give| give.0) {
            Ok(place) => Some(self.gives[place].1),
            Err(_) => None,
        }
    }

    /// A relay's load: what it begins with, and one more for each id that it is given.
    pub fn load(&self, relay: u16) -> u64
        ensures { result ≡ planned_load self.now relay }
    {
        if relay < RELAYS {
            self.loads[usize::from(relay)]
        } else {
            0
        }
    }

    /// What the relays' loads begin with.
    pub fn bases(&self) -> Bases
        ensures { result ≡ self.now.bases }
    {
        self.bases
    }

    /// The greatest load.
    pub fn least_max(&self) -> u64
        ensures { result ≡ self.now.least_max }
    {
        self.least_max
    }

    /// The relays that alone, with what they begin with, hold too many ids for a smaller greatest load: those that
    /// chains of single moves reach from the busiest relays. Empty where the greatest load is 0.
    pub fn group(&self) -> RelaySet
        ensures { result ≡ self.now.group }
    {
        self.group
    }
}
