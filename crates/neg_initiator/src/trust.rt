//! Stretches that are trusted because the reply skips them.

ghost use Rattle.std.specs.Prelude.{◌≡◌, ◌≤◌, ◌<◌, ◌↔◌, [], ◌∷◌, ◌++◌, List, Any, Contains, true, IsTrue, OnOk, length, map, take};
ghost use Rattle.item_key.specs.declared.Item.{Item};
ghost use Rattle.item_key.specs.Keys.{place};
ghost use Rattle.neg_codec.specs.Ranges.{Ascends, stretches, stretches_from, edge_of, span_of};
ghost use Rattle.item_roll.specs.Truth.{Meet};
ghost use Rattle.neg_draft.specs.Coverage.{begun_at, end_of};
ghost use Rattle.neg_initiator.specs.Listed.{Distinct};
ghost use Rattle.neg_initiator.specs.Pairs.{pair_of};
ghost use Rattle.neg_initiator.specs.Trusting.{between, earlier, IsSkippedIn, TrustsOne, TrustsSkipped};

use item_key::Key;
use neg_codec::{Bound, Message, Payload, Range};
use std::alloc::AllocError;

/// Whether two stretches, each between two bounds, have a key in common.
fn do_meet(lower: &Bound, upper: &Bound, other_lower: &Bound, other_upper: &Bound) -> bool
    ensures { IsTrue result ↔ Meet (between (edge_of lower.now) (edge_of upper.now)) (between (edge_of other_lower.now) (edge_of other_upper.now)) }
{
    let _ = (
        lower.edge(),
        upper.edge(),
        other_lower.edge(),
        other_upper.edge(),
    );
    let own = lower.is_below(upper);
    let first = lower.is_below(other_upper);
    let second = other_lower.is_below(upper);
    let other = other_lower.is_below(other_upper);
    own & first & second & other
}

/// Whether a range of the reply, begun at a bound, is a Skip that has a key in common with a stretch.
fn is_met(range: &Range, from: &Bound, lower: &Bound, upper: &Bound) -> bool
    ensures { IsTrue result ↔ IsSkippedIn (begun_at (edge_of from.now) (span_of range.now) ∷ []) (between (edge_of lower.now) (edge_of upper.now)) }
{
    match range.payload {
        Payload::Skip => do_meet(from, &range.upper, lower, upper),
        _ => false,
    }
}

/// How far a walk over ranges went.
#[derive(Clone, Copy)]
struct Passed {
    /// Whether a Skip was met.
    met: bool,
    /// How many ranges were passed.
    count: usize,
    /// Where these end.
    end: Bound,
}

/// Whether a stretch of a reply that begins at a bound is a Skip that has a key in common with the
/// stretch between two others, and how many of its ranges end in that stretch.
fn pass(rest: &[Range], from: Bound, lower: &Bound, upper: &Bound) -> Passed
    requires ascends { Ascends (edge_of from) (map span_of rest.now) }
    requires behind { place (edge_of from) ≤ place (edge_of upper.now) }
    ensures met { IsTrue result.met ↔ IsSkippedIn (stretches_from (edge_of from) (map span_of rest.now)) (between (edge_of lower.now) (edge_of upper.now)) }
    ensures count { result.count ≤ length rest.now }
    ensures end { edge_of result.end ≡ end_of (edge_of from) (map span_of (take result.count rest.now)) }
    ensures behind { place (edge_of result.end) ≤ place (edge_of upper.now) }
{
    let mut met = false;
    let mut end = from;
    for (count, range) in rest.iter().enumerate() {
        let here = is_met(range, &end, lower, upper);
        met = met | here;
        if upper.is_below(&range.upper) {
            return Passed { met, count, end };
        }
        end = range.upper;
    }
    let implied = do_meet(&end, &Bound::Infinite, lower, upper);
    Passed {
        met: met | implied,
        count: rest.len(),
        end,
    }
}

/// Adds the stretch between two bounds.
pub fn trust(trusted: &mut Vec<(Key, Bound)>, lower: Bound, upper: Bound) -> Result<(), AllocError>
    requires { place (edge_of lower) < place (edge_of upper) }
    ensures { OnOk result (map pair_of trusted.new.items ≡ map pair_of trusted.old.items ++ (edge_of lower, edge_of upper) ∷ []) }
{
    let _ = upper.edge();
    match lower {
        Bound::At(key) => {
            trusted.push((key, upper))?;
            Ok(())
        }
        Bound::Infinite => unreachable!(),
    }
}

/// Adds a range of the last ask, begun at a bound, if it is a fingerprint and was met.
fn trust_one(
    trusted: &mut Vec<(Key, Bound)>,
    met: bool,
    lower: Bound,
    range: &Range,
) -> Result<(), AllocError>
    requires { IsTrue met → place (edge_of lower) < place (edge_of range.now.upper) }
    ensures { OnOk result (TrustsOne met (edge_of lower) (span_of range.now) (map pair_of trusted.old.items) (map pair_of trusted.new.items)) }
{
    if !met {
        return Ok(());
    }
    match range.payload {
        Payload::Print(_) => trust(trusted, lower, range.upper),
        _ => Ok(()),
    }
}

/// The earlier of two bounds.
fn earlier_of(a: &Bound, b: &Bound) -> Bound
    ensures { edge_of result ≡ earlier (edge_of a.now) (edge_of b.now) }
{
    if a.is_below(b) { *a } else { *b }
}

/// Adds each fingerprint of the last ask that has a key in common with a Skip of the reply below a bound.
/// Both are walked once.
pub fn trust_skipped(
    asked: &Message,
    answered: &Message,
    until: &Bound,
    trusted: &mut Vec<(Key, Bound)>,
) -> Result<(), AllocError>
    ensures { OnOk result (TrustsSkipped asked.now answered.now (edge_of until.now) (stretches asked.now) (map pair_of trusted.old.items) (map pair_of trusted.new.items)) }
{
    let mut rest = answered.ranges();
    let mut from = Bound::lowest();
    let mut lower = Bound::lowest();
    for range in asked.ranges() {
        let upper = earlier_of(until, &range.upper);
        let passed = pass(rest, from, &lower, &upper);
        trust_one(trusted, passed.met, lower, range)?;
        let (_, behind) = rest.split_at(passed.count);
        rest = behind;
        from = passed.end;
        lower = range.upper;
    }
    Ok(())
}

/// Puts values in order, each once.
pub fn put_in_order<T: Ord + Drop>(list: &mut Vec<T>)
    ensures kept { (x : T) → Contains list.old.items x → Any (λ y. T.eq x y ≡ true) list.new.items }
    ensures from { (x : T) → Contains list.new.items x → Contains list.old.items x }
    ensures once { Distinct list.new.items }
{
    list.sort_unstable();
    list.dedup();
}
