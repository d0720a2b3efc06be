// Events whose ids are right.
ghost use Rattle.std.specs.Prelude.{◌≡◌, ◌<◌, IfOk, IfSome, None, IsTrue, ◌↔◌};
ghost use Rattle.serde_json.specs.Written.{compact_text};
ghost use Rattle.item_key.specs.Keys.{endless};
ghost use Rattle.nostr_event.specs.EventView.{IsIdOf, IsInRange, IsEvent, item_of};
ghost use Rattle.nostr_event.specs.EventJson.{Reads, object_of};

use crate::draft::{Draft, Spelling};
use crate::ids::id_of;
use crate::printing::text_of;
use crate::tags::Tags;
use item_key::{Id, Item};
use std::alloc::{AllocError, Global};
use std::marker::Model;

/// An event: its id is the digest of one of the two spellings of its draft's text, and its time is below 2^64-1. The signature
/// isn't checked. The text of its JSON is kept, since it is sent more often than it is read; the content and the signature stand
/// nowhere else.
pub struct Event {
    // First, so that what leads to it lies beside an `Arc`'s counts, which sending it reads too.
    text: String,
    id: Id,
    pubkey: [u8; 32],
    created_at: u64,
    kind: u16,
    tags: Tags,
}

// By hand, as a derived one is proved anew wherever a value is dropped.
impl Drop for Event {
    fn drop(self) {
        let Self {
            text: _,
            id: _,
            pubkey: _,
            created_at: _,
            kind: _,
            tags: _,
        } = self;
    }
}

impl Model for Event {
    ghost use Rattle.std.specs.Prelude.{◌≡◌, string_bytes};
    ghost use Rattle.serde_json.specs.Written.{compact_text};
    ghost use Rattle.nostr_event.specs.EventView.{EventView, IsEvent};
    ghost use Rattle.nostr_event.specs.EventJson.{object_of};
    ghost use Rattle.nostr_event.specs.Said.{event_with};

    ghost Value = { EventView };

    ghost view = { λ e. event_with e.id e.pubkey e.created_at e.kind e.tags (string_bytes e.text) };

    ghost invariant = { λ e. IsEvent (event_with e.id e.pubkey e.created_at e.kind e.tags (string_bytes e.text))
        × (string_bytes e.text ≡ compact_text (object_of (event_with e.id e.pubkey e.created_at e.kind e.tags (string_bytes e.text)))) };
}

impl Event {
    /// The event's id.
    pub fn id(&self) -> Id
        ensures value { result ≡ self.now.id }
        ensures right { IsIdOf self.now.id self.now.draft }
        ensures whole { IsEvent self.now }
    {
        self.id
    }

    /// The author's public key.
    pub fn pubkey(&self) -> &[u8; 32]
        ensures { result.now ≡ self.now.draft.pubkey }
    {
        &self.pubkey
    }

    /// Seconds since the Unix epoch.
    pub fn created_at(&self) -> u64
        ensures { result ≡ self.now.draft.created_at }
    {
        self.created_at
    }

    pub fn kind(&self) -> u16
        ensures { result ≡ self.now.draft.kind }
    {
        self.kind
    }

    pub fn tags(&self) -> &Tags
        ensures { result.now ≡ self.now.draft.tags }
    {
        &self.tags
    }

    /// The text of the event's JSON object (NIP-01), with no space.
    pub fn text(&self) -> &str
        ensures text { result.now ≡ compact_text (object_of self.now) }
        ensures reads_back { Reads (object_of self.now) self.now }
    {
        self.text.as_str()
    }

    /// The event's time and id.
    pub fn item(&self) -> Item
        ensures value { result ≡ item_of self.now }
        ensures finite { result.time < endless }
    {
        let Event { id, created_at, .. } = self;
        Item {
            time: *created_at,
            id: *id,
        }
    }
}

// Whether the id is the draft's in one of its two spellings.
fn is_id_of(alloc: Global, id: &Id, draft: &Draft) -> Result<bool, AllocError>
    ensures { IfOk result (λ b. IsTrue b ↔ IsIdOf id.now draft.now) }
{
    Ok(
        *id == id_of(alloc, draft, Spelling::Plain)?
            || *id == id_of(alloc, draft, Spelling::Escaped)?,
    )
}

// The event of these parts, whose id is the draft's. Of the content and the signature its text alone is kept.
fn with_text(alloc: Global, id: Id, draft: Draft, sig: &[u8; 64]) -> Result<Event, AllocError>
    requires { IsEvent (record { id = id; draft = draft; sig = sig.now }) }
    ensures { IfOk result (λ e. e ≡ record { id = id; draft = draft; sig = sig.now }) }
{
    let text = text_of(alloc, &id, &draft, sig)?;
    let (pubkey, created_at, kind, tags) = draft.into_parts();
    Ok(Event {
        text,
        id,
        pubkey,
        created_at,
        kind,
        tags,
    })
}

impl Event {
    /// The event of these parts, if the id is the draft's.
    pub fn from_parts(
        alloc: Global,
        id: Id,
        draft: Draft,
        sig: [u8; 64],
    ) -> Result<Option<Event>, AllocError>
        requires { IsInRange (record { id = id; draft = draft; sig = sig }) }
        ensures made { IfOk result (λ o. IfSome o (λ e. (e ≡ record { id = id; draft = draft; sig = sig }) × IsIdOf id draft)) }
        ensures refused { IfOk result (λ o. o ≡ None → ¬ IsIdOf id draft) }
    {
        if is_id_of(alloc, &id, &draft)? {
            Ok(Some(with_text(alloc, id, draft, &sig)?))
        } else {
            Ok(None)
        }
    }
}
