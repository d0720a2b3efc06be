//! The members of a set of relays.

ghost use Rattle.std.specs.Prelude.{◌≡◌, IfOk};
ghost use Rattle.sharing.specs.Offers.{AreRelays};

use offer_table::RelaySet;
use sharing::RELAYS;
use std::alloc::{AllocError, Global};

/// The members of a set of relays, in order.
pub(crate) fn members_of(alloc: Global, relays: RelaySet) -> Result<Vec<u16>, AllocError>
    requires { AreRelays relays }
    ensures { IfOk result (λ v. v.items ≡ relays) }
{
    let mut members = Vec::new(alloc);
    for relay in 0..RELAYS {
        if relays.has(relay) {
            members.push(relay)?;
        }
    }
    Ok(members)
}
