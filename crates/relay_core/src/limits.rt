//! The limits of a connection.

ghost use Rattle.relay_core.specs.Limits.{AreWithin};

/// How many bytes a Negentropy message that is sent may have where nothing else is said.
const DEFAULT_LIMIT: usize = 60_000;

/// The limits of a connection.
#[derive(Clone, Copy)]
pub struct RelayLimits {
    /// How many subscriptions there may be at once, at most 32.
    pub subs: usize,
    /// How many filters a request may have, at most 16.
    pub filters: usize,
    /// How many bytes a client's text may have, at most 2,200,000.
    pub text: usize,
    /// How many Negentropy sessions there may be at once, at most 16.
    pub sessions: usize,
    /// How many events a session may be about, at most 500,000.
    pub records: usize,
    /// How many bytes a Negentropy message that is sent may have, 4,096 to 1,048,576.
    pub limit: usize,
    /// Whether events of clients are refused.
    pub is_read_only: bool,
    pub ghost within: { AreWithin subs filters text sessions records limit },
}

impl RelayLimits {
    ghost use Rattle.std.specs.Prelude.{◌≡◌, ◌≤◌};
    ghost use Rattle.relay_core.specs.Most.{AreMost};

    /// The greatest limits, with Negentropy messages of at most so many bytes, 4,096 to 1,048,576.
    pub fn most(limit: usize) -> RelayLimits
        requires { 4096 ≤ limit × limit ≤ 1048576 }
        ensures { AreMost limit result }
    {
        RelayLimits {
            subs: 32,
            filters: 16,
            text: 2_200_000,
            sessions: 16,
            records: 500_000,
            limit,
            is_read_only: false,
        }
    }

    /// The same, where events of clients are refused or aren't.
    pub fn read_only(mut self, is_read_only: bool) -> RelayLimits
        ensures { result ≡ record self { is_read_only = is_read_only } }
    {
        self.is_read_only = is_read_only;
        self
    }
}

/// The greatest limits, with Negentropy messages of at most 60,000 bytes.
impl Default for RelayLimits {
    ghost use Rattle.relay_core.specs.Most.{AreMost};

    fn default() -> RelayLimits
        ensures { AreMost 60000 result }
    {
        RelayLimits::most(DEFAULT_LIMIT)
    }
}
