//! What reading takes of memory beside the events.

use json::Scratch;
use std::alloc::Global;

/// Behind a longer text nothing is kept.
const MOST_KEPT: usize = 16_384;

/// Memory that reading takes beside the events: as much as the text, and some 16 KiB. It is made, and cleared, for the first text,
/// and kept for the next ones, but not behind a long one: who waits for the next text holds no more than twice 16 KiB.
pub struct EventScratch {
    made: Option<Scratch>,
}

// By hand, as a derived one is proved anew wherever a value is dropped.
impl Drop for EventScratch {
    fn drop(self) {
        let Self { made: _ } = self;
    }
}

impl EventScratch {
    /// Without memory yet.
    pub fn new() -> EventScratch {
        EventScratch { made: None }
    }

    /// It, made if it wasn't yet.
    pub fn lend(&mut self, alloc: Global) -> &mut Scratch {
        self.made.get_or_insert_with(|| Scratch::new(alloc))
    }

    /// Gives it back, if a text of so many bytes was long.
    pub fn rest(&mut self, text: usize) {
        if text > MOST_KEPT {
            self.made = None;
        }
    }
}
