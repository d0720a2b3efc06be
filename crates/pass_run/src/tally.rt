//! What became of the ids of a slice, or of several.

ghost use Rattle.std.specs.Prelude.{◌≡◌, ◌+◌};
ghost use Rattle.pass_run.specs.Sums.{capped};

/// What became of ids.
#[derive(Clone, Copy)]
pub struct Tally {
    /// How many ids were needed.
    pub need: u64,
    /// How many of them were given.
    pub given: u64,
    /// How often one that was asked for wasn't given.
    pub missed: u64,
    /// How many are left.
    pub left: u64,
}

impl Tally {
    /// Of no ids.
    pub fn none() -> Tally
        ensures { result ≡ record { need = 0; given = 0; missed = 0; left = 0 } }
    {
        Tally {
            need: 0,
            given: 0,
            missed: 0,
            left: 0,
        }
    }

    /// Of these and others, each number up to the greatest.
    pub fn with(&self, other: &Tally) -> Tally
        ensures need { result.need ≡ capped (self.now.need + other.now.need) }
        ensures given { result.given ≡ capped (self.now.given + other.now.given) }
        ensures missed { result.missed ≡ capped (self.now.missed + other.now.missed) }
        ensures left { result.left ≡ capped (self.now.left + other.now.left) }
    {
        Tally {
            need: self.need.saturating_add(other.need),
            given: self.given.saturating_add(other.given),
            missed: self.missed.saturating_add(other.missed),
            left: self.left.saturating_add(other.left),
        }
    }
}
