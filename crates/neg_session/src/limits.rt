//! The limits of a session.

ghost use Rattle.neg_session.specs.Limits.{AreWithin};

/// How many bytes a message may have at least.
pub const LEAST_LIMIT: usize = 4_096;

/// How many it may have at most.
pub const MOST_LIMIT: usize = 1_048_576;

/// How many it may have where nothing else is said.
pub const DEFAULT_LIMIT: usize = 60_000;

/// The limits of a session.
#[derive(Clone, Copy, PartialEq, Eq)]
pub struct SessionLimits {
    /// The bytes of a message that is sent, 4,096 to 1,048,576.
    pub limit: usize,
    /// How many questions may be asked, at most 4,096.
    pub rounds: u32,
    /// How many ids may be needed, at most 200,000.
    pub need: usize,
    /// How many bytes the answers may have together, at most 67,108,864.
    pub log: usize,
    pub ghost within: { AreWithin limit rounds need log },
}

impl SessionLimits {
    ghost use Rattle.std.specs.Prelude.{◌≤◌};
    ghost use Rattle.neg_session.specs.Most.{AreMost};

    /// The greatest limits, with messages of at most so many bytes, 4,096 to 1,048,576.
    pub fn most(limit: usize) -> SessionLimits
        requires { 4096 ≤ limit × limit ≤ 1048576 }
        ensures { AreMost limit result }
    {
        SessionLimits {
            limit,
            rounds: 4_096,
            need: 200_000,
            log: 67_108_864,
        }
    }
}

impl Default for SessionLimits {
    ghost use Rattle.neg_session.specs.Most.{AreMost};

    fn default() -> SessionLimits
        ensures { AreMost 60000 result }
    {
        SessionLimits::most(DEFAULT_LIMIT)
    }
}
