//! The bytes that went over a stream, for proofs alone.
ghost use Rattle.std.specs.Prelude.{◌≡◌, ◌++◌, [], take};

use http_server::Log;
use std::marker::Model;

/// All bytes that went over a stream one way. It takes no memory, and does nothing when it runs.
#[derive(Drop)]
pub struct Trail {
    calls: Log<Vec<u8>, usize>,
}

impl Model for Trail {
    ghost use Rattle.std.specs.Prelude.{ℕ, List};
    ghost use Rattle.wire.specs.Passed.{passed};

    ghost Value = { List ℕ };

    ghost view = { λ t. passed t.calls.items };
}

impl Trail {
    /// Nothing went over it.
    pub fn new() -> Trail
        ensures { result ≡ [] }
    {
        Trail { calls: Log::new() }
    }

    /// The bytes went over it.
    #[tactic(auto, using(crate::proofs::Passing::all_passed))]
    pub fn of(bytes: &Vec<u8>) -> Trail
        ensures { result ≡ bytes.now.items }
    {
        Trail::new().and(bytes, bytes.len())
    }

    /// The first so many bytes of the buffer went over it.
    #[tactic(auto, using(crate::proofs::Passing::passed_more))]
    pub fn and(&self, buffer: &Vec<u8>, count: usize) -> Trail
        ensures { result ≡ self.now ++ take count buffer.now.items }
    {
        Trail {
            calls: self.calls.and(buffer, &count),
        }
    }
}
