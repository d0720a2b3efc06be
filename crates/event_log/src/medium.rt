//! What holds the lines of a log.
ghost use Rattle.std.specs.Prelude.{◌≡◌, MatchResult, Option, None, take};
ghost use Rattle.std.specs.Io.{WritesAtMost};
ghost use Rattle.event_log.specs.Media.{Held, Goes, Stays, Takes, Syncs, CutsTo};

use std::io;

/// What holds the lines of a log, as a file does.
pub trait Medium {
    // What it holds, where that is known.
    ghost held: { Self → Option Held } = { λ _. None };

    /// Writes a beginning of the bytes behind all others, and says how many these are.
    fn write(&mut self, bytes: &[u8]) -> io::Result<usize>
        ensures bound { WritesAtMost result bytes.now }
        ensures bytes { MatchResult result (λ n. Goes (Takes (take n bytes.now)) (held self.old) (held self.new)) (λ _. Goes Stays (held self.old) (held self.new)) };

    /// All that was written lasts. Where it fails, what was written since the last time is not to be trusted.
    fn sync(&mut self) -> io::Result<()>
        ensures { MatchResult result (λ _. Goes Syncs (held self.old) (held self.new)) (λ _. Goes Stays (held self.old) (held self.new)) };

    /// Cuts off all but the first bytes.
    fn cut(&mut self, len: u64) -> io::Result<()>
        ensures { MatchResult result (λ _. Goes (CutsTo len) (held self.old) (held self.new)) (λ _. Goes Stays (held self.old) (held self.new)) };
}
