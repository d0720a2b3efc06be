//! The steps of the store's rule.
ghost use Rattle.std.specs.Prelude.{◌≡◌, IfOk, MatchResult, MatchOption};
ghost use Rattle.std.specs.Arc.{arc_value};
ghost use mathlib.Core.List.{IsPrefix};
ghost use Rattle.left_right.specs.Sides.{view};

use crate::blank::Front;
use crate::name::Naming;
use crate::rule::{Pen, Sees, Side};
use crate::shown::Shown;
use event_table::EventTable;
use std::alloc::AllocError;
use std::sync::{Arc, Wait};

/// What a reader takes along: how far the history was seen, and the events, unless their reference could not be shared.
pub type Taken<J> = (Front<J>, Result<Arc<EventTable>, AllocError>);

/// Sees what is published, which begins with all that this side has seen.
pub fn look<J: Naming>(side: Side<J>) -> (Side<J>, Option<Taken<J>>)
    ensures { MatchOption result.1 (view result.0.place ≡ view side.place) (λ t. IsPrefix (view side.place).seen t.0 × ((view result.0.place).seen ≡ t.0) × IfOk t.1 (λ a. arc_value a ≡ t.0)) }
{
    match side.enter_as::<Sees<J>>() {
        Ok(reading) => {
            let shown = reading.get();
            let front = Front::of(shown.mark().again());
            let state = Arc::try_clone(shown.state());
            (reading.leave(), Some((front, state)))
        }
        Err(side) => (side, None),
    }
}

/// Publishes `next`, which begins with what is published.
pub fn publish<J: Naming, W: Wait>(
    pen: Pen<J>,
    rt: &W,
    next: Shown,
) -> (Pen<J>, Result<(), AllocError>)
    requires book { next.book ≡ pen.desk.shown.value.book }
    requires list { IsPrefix pen.desk.shown.value.list next.list }
    ensures { MatchResult result.1 (λ _. result.0.desk.shown.value ≡ next) (λ _. result.0.desk.shown.value ≡ pen.desk.shown.value) }
{
    let mut pen = pen;
    let Ok(()) = pen.append(next) else {
        return (pen, Err(AllocError));
    };
    pen.publish_as::<Sees<J>, W>(rt)
}
