// What an event says.
ghost use Rattle.std.specs.Prelude.{◌≡◌};

use crate::tags::Tags;
use crate::texts::Text;

/// How control characters that have no short escape stand in an id's text.
#[derive(Clone, Copy)]
pub enum Spelling {
    /// As they are, as NIP-01 says.
    Plain,
    /// As `\u00xx` with lower-case digits, as many JSON writers do.
    Escaped,
}

/// What an event says, before it has an id and a signature (NIP-01).
pub struct Draft {
    /// The author's public key.
    pub pubkey: [u8; 32],
    /// Seconds since the Unix epoch.
    pub created_at: u64,
    pub kind: u16,
    pub tags: Tags,
    pub content: Text,
}

// By hand, as a derived one is proved anew wherever a value is dropped.
impl Drop for Draft {
    fn drop(self) {
        let Self {
            pubkey: _,
            created_at: _,
            kind: _,
            tags: _,
            content: _,
        } = self;
    }
}

impl Draft {
    /// Its author, its time, its kind and its tags. The content is let go.
    pub(crate) fn into_parts(self) -> ([u8; 32], u64, u16, Tags)
        ensures { result ≡ (self.pubkey, self.created_at, self.kind, self.tags) }
    {
        let Self {
            pubkey,
            created_at,
            kind,
            tags,
            content: _,
        } = self;
        (pubkey, created_at, kind, tags)
    }
}
