//! The order of ids.

ghost use Rattle.std.specs.Prelude.{◌≡◌, take};
ghost use Rattle.std.specs.Ordering.{nat_cmp};
ghost use Rattle.std.specs.Cmp.Lexicographic.{slice_cmp};
ghost use Rattle.item_key.specs.Keys.{number_of_bytes};

use crate::Id;
use crate::items::id_has_its_length;
use std::cmp::Ordering;

/// The first eight bytes of an id as a number, the first byte the highest.
#[inline(always)]
fn first_word(id: &Id) -> u64
    ensures { result ≡ number_of_bytes (take 8 id.now.0) }
{
    let bytes = &id.0;
    u64::from_be_bytes([
        bytes[0], bytes[1], bytes[2], bytes[3], bytes[4], bytes[5], bytes[6], bytes[7],
    ])
}

/// Compares all bytes in turn.
#[inline(never)]
fn compare_bytes(id: &Id, other: &Id) -> Ordering
    ensures { result ≡ slice_cmp nat_cmp id.now.0 other.now.0 }
{
    id.0.cmp(&other.0)
}

/// Byte by byte. The first eight are compared as one number, which tells most ids apart.
impl Ord for Id {
    ghost use Rattle.std.specs.Prelude.{refl};
    ghost use Rattle.item_key.specs.declared.Id.{Id as AnId};
    ghost use Rattle.std.specs.Ordering.{nat_cmp};
    ghost use Rattle.std.specs.Cmp.{on_total};
    ghost use Rattle.std.specs.Cmp.Lexicographic.{slice_cmp, nat_list_cmp_total, lists_agrees, texts_ties};

    ghost cmp = { λ a b. slice_cmp nat_cmp a.0 b.0 };

    ghost total = { on_total (λ (i : AnId). i.0) nat_list_cmp_total };

    ghost matches_partial_cmp = { λ a b. lists_agrees (λ x y. refl) a.0 b.0 };

    ghost matches_eq = { λ a b. texts_ties a.0 b.0 };

    #[inline(always)]
    fn cmp(&self, other: &Id) -> Ordering {
        id_has_its_length(&self.0);
        id_has_its_length(&other.0);
        match first_word(self).cmp(&first_word(other)) {
            Ordering::Equal => compare_bytes(self, other),
            order => order,
        }
    }
}
