//! Places that stand in two lists.
ghost use Rattle.std.specs.Prelude.{◌≡◌, ◌<◌, ℕ, true, false, length, slice_index_or, All, Contains, IfOk};

use std::alloc::{AllocError, Global};

// Notes each of these places that is below the length.
fn note(there: &mut [bool], places: &[usize])
    ensures noted { (i : ℕ) → i < length there.old → Contains places.now i → slice_index_or there.new i false ≡ true }
    ensures length { length there.new ≡ length there.old }
{
    for place in places {
        if *place < there.len() {
            there[*place] = true;
        }
    }
}

// For each place below the limit whether it is one of these.
fn noted(alloc: Global, places: &[usize], limit: usize) -> Result<Vec<bool>, AllocError>
    ensures noted { IfOk result (λ v. (i : ℕ) → i < limit → Contains places.now i → slice_index_or v.items i false ≡ true) }
    ensures length { IfOk result (λ v. length v.items ≡ limit) }
{
    let mut there = vec![in alloc; false; limit]?;
    note(&mut there, places);
    Ok(there)
}

/// The places below a limit that stand in others too, in their order. It takes a byte for each place below the limit meanwhile.
pub fn common(
    alloc: Global,
    places: &[usize],
    others: &[usize],
    limit: usize,
) -> Result<Vec<usize>, AllocError>
    ensures below { IfOk result (λ v. All (λ p. p < limit) v.items) }
    ensures whole { IfOk result (λ v. (i : ℕ) → i < limit → Contains places.now i → Contains others.now i → Contains v.items i) }
{
    let there = noted(alloc, others, limit)?;
    let mut both = Vec::new(alloc);
    for place in places {
        if *place < limit && there[*place] {
            both.push(*place)?;
        }
    }
    Ok(both)
}
