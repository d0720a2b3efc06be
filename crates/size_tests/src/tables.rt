//! Tables of as many ids as a table takes.

use item_key::Id;
use offer_table::{OfferFault, OfferTable};
use std::alloc::{AllocError, Global};
use std::collections::BTreeSet;
use std::test::Fail;

/// An id whose first bytes are the number's, so that ids are in the order of their numbers.
fn numbered(number: u32) -> Id {
    let [a, b, c, d] = number.to_be_bytes();
    let mut id = [7; 32];
    id[0] = a;
    id[1] = b;
    id[2] = c;
    id[3] = d;
    Id(id)
}

/// The ids of the numbers from the first on and below the last.
pub fn ids(alloc: Global, first: u32, last: u32) -> Result<BTreeSet<Id>, AllocError> {
    let mut ids = BTreeSet::new(alloc);
    for number in first..last {
        ids.insert(numbered(number))?;
    }
    Ok(ids)
}

/// The fault of a report.
fn fault(alloc: Global, relay: u16, ids: &BTreeSet<Id>) -> Option<OfferFault> {
    OfferTable::of_report(alloc, relay, ids).err()
}

/// The fault of a merge that hands both tables back as they were.
fn refused(a: OfferTable, b: OfferTable) -> Option<OfferFault> {
    let (many, few) = (a.list().len(), b.list().len());
    match a.merge(b) {
        Ok(_) => None,
        Err((fault, a, b)) => {
            if a.list().len() == many && b.list().len() == few {
                Some(fault)
            } else {
                None
            }
        }
    }
}

/// Why a table with as many ids as it takes isn't merged with one of one id more.
fn refused_merge(alloc: Global) -> Option<OfferFault> {
    let full = OfferTable::of_report(alloc, 0, &ids(alloc, 0, 200_000).ok()?).ok()?;
    let one = OfferTable::of_report(alloc, 1, &ids(alloc, 200_000, 200_001).ok()?).ok()?;
    refused(full, one)
}

/// Whether reports are refused that have one id too many.
fn refuses(alloc: Global) -> Option<bool> {
    let many = ids(alloc, 0, 200_001).ok()?;
    let none = fault(alloc, 256, &many);
    Some(none == Some(OfferFault::Relay) && fault(alloc, 255, &many) == Some(OfferFault::TableFull))
}

#[test]
fn a_full_table_takes_no_more(rt: HostRuntime) -> Result<(), Fail> {
    assert!(rt; refused_merge(rt.alloc()) == Some(OfferFault::TableFull));
    assert!(rt; refuses(rt.alloc()) == Some(true));
    Ok(())
}
