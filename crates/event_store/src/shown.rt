//! What is published: the events, behind one shared reference, and the history that they are a beginning of.
ghost use Rattle.std.specs.Prelude.{◌≡◌, IfOk};
ghost use Rattle.std.specs.Arc.{arc_value};

use crate::mark::Mark;
use event_table::EventTable;
use left_right::Absorb;
use std::alloc::AllocError;
use std::marker::Model;
use std::sync::Arc;

/// What readers take. Contracts see it as its events, and the book of their history.
pub struct Shown {
    state: Arc<EventTable>,
    mark: Mark,
}

// By hand, as a derived one is proved anew wherever a value is dropped.
impl Drop for Shown {
    fn drop(self) {
        let Self { state: _, mark: _ } = self;
    }
}

impl Model for Shown {
    ghost use Rattle.std.specs.Prelude.{◌≡◌};
    ghost use Rattle.std.specs.Arc.{arc_value};
    ghost use Rattle.event_store.specs.Marks.{Marked};

    ghost Value = { Marked };

    ghost view = { λ s. s.mark };

    ghost invariant = { λ s. s.mark.list ≡ arc_value s.state };
}

impl Shown {
    pub fn new(state: Arc<EventTable>, mark: Mark) -> Shown
        requires { mark.list ≡ arc_value state }
        ensures { result ≡ mark }
    {
        Shown { state, mark }
    }

    pub fn state(&self) -> &Arc<EventTable>
        ensures { arc_value result.now ≡ self.now.list }
    {
        &self.state
    }

    pub fn mark(&self) -> &Mark
        ensures { result.now ≡ self.now }
    {
        &self.mark
    }

    /// The same, shared.
    pub fn again(&self) -> Result<Shown, AllocError>
        ensures { IfOk result (λ s. s ≡ self.now) }
    {
        Ok(Shown {
            state: Arc::try_clone(&self.state)?,
            mark: self.mark.again(),
        })
    }
}

/// The operation is the whole new value, which replaces what was there.
impl Absorb<Shown> for Shown {
    type State = Shown;

    ghost state = { λ s. s };

    ghost applied = { λ _ next. next };

    fn absorb_first(&mut self, operation: &Shown, _other: &Shown) -> Result<(), AllocError> {
        *self = operation.again()?;
        Ok(())
    }

    fn absorb_second(&mut self, operation: Shown, _other: &Shown) -> Result<(), Shown> {
        *self = operation;
        Ok(())
    }
}
