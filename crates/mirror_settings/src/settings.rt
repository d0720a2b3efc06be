//! The settings of a run.
ghost use Rattle.std.specs.Prelude.{◌≡◌, ◌*◌, unwrap_or};
ghost use Rattle.std.specs.Duration.{as_nanos};

use crate::address::Address;
use crate::lists::{Loads, Relays};
use nostr_event::Text;
use nostr_filter::Filter;
use std::time::Duration;

/// What `timeout_ms` is where it is left out: a minute.
const TIMEOUT_MS: u64 = 60_000;

/// When the lines that are appended to the events file are synced.
#[derive(Clone, Copy, PartialEq, Eq)]
pub enum Syncing {
    /// Before they are acknowledged.
    Always,
    /// Once a second. They are acknowledged once they are written.
    EverySecond,
    /// By the system, and in the end. They are acknowledged once they are written.
    Never,
}

/// What a mirror does beside.
#[derive(Clone, Copy, PartialEq, Eq)]
pub struct Mirroring {
    /// How many milliseconds behind one another passes begin at least, 1 to 86,400,000.
    pub every_ms: u64,
    /// After how many passes it ends, 1 to 1,000,000,000; without an end where that is left out.
    pub passes: Option<u64>,
    /// Whether it subscribes to relays that are level.
    pub live: bool,
}

/// The settings of a run that serves, of one that synchronises and may serve beside, or of a mirror.
pub struct Settings {
    /// The path of the events file.
    pub events: Text,
    /// Where to listen.
    pub listen: Option<Address>,
    /// How many connections are served, 1 to 1,000,000. A mirror serves without an end.
    pub conns: Option<u64>,
    /// The relays to synchronise with, 1 to 256. None are read where the run only serves.
    pub relays: Relays,
    /// Which events to synchronise.
    pub filter: Filter,
    /// How many connections fetch from each relay, 1 to 4.
    pub workers: u64,
    /// The load that each relay begins with, at most 1,000,000,000.
    pub bases: Loads,
    /// How many rounds of planning and fetching there are at most, 1 to 16.
    pub rounds: u64,
    /// 1 to 60,000. It has no effect any more.
    pub push_ms: Option<u64>,
    /// For how many milliseconds the other side of a connection may keep this one waiting, 1 to 3,600,000.
    pub timeout_ms: Option<u64>,
    /// When the lines that are appended to the events file are synced.
    pub fsync: Syncing,
    /// How many bytes a second a fetch that goes on for long has to bring, 1 to 1,000,000,000.
    pub slow_bytes: u64,
    /// How many connections are served side by side, 1 to 100,000.
    pub clients: Option<u64>,
    /// After how many milliseconds in which a client brings nothing it is sent a ping, and after as many more its connection ends, 1 to
    /// 3,600,000.
    pub ping_ms: Option<u64>,
    /// Whether events of clients are refused.
    pub read_only: bool,
    /// What a mirror does beside.
    pub mirroring: Mirroring,
}

// By hand, as a derived one is proved anew wherever a value is dropped.
impl Drop for Settings {
    fn drop(self) {
        let Self {
            events: _,
            listen: _,
            conns: _,
            relays: _,
            filter: _,
            workers: _,
            bases: _,
            rounds: _,
            push_ms: _,
            timeout_ms: _,
            fsync: _,
            slow_bytes: _,
            clients: _,
            ping_ms: _,
            read_only: _,
            mirroring: _,
        } = self;
    }
}

impl Settings {
    /// For how long the other side of a connection may keep this one waiting.
    pub fn timeout(&self) -> Duration
        ensures { as_nanos result ≡ unwrap_or self.now.timeout_ms 60000 * 1000000 }
    {
        Duration::from_millis(self.timeout_ms.unwrap_or(TIMEOUT_MS))
    }
}
