// An event read from its JSON object.
ghost use Rattle.std.specs.Prelude.{◌≡◌, ◌≢◌, IfOk, IfErr, OnOk};
ghost use Rattle.serde_json.specs.View.{view};
ghost use Rattle.nostr_event.specs.EventView.{EventView};
ghost use Rattle.nostr_event.specs.EventJson.{HasBare, HasFields, Passes, Reads, Refuses};

use crate::draft::Draft;
use crate::event::Event;
use crate::fault::{EventFault, EventField};
use crate::fields::{below, shapes_of, tags_of};
use crate::hexes::{hex32_at, hex64_at};
use crate::texts::Text;
use item_key::Id;
use serde_json::Value;
use std::alloc::Global;

// The parts of an event whose id has not been looked at.
#[derive(Drop)]
struct Parts {
    id: Id,
    draft: Draft,
    sig: [u8; 64],
}

/// The fields of an event but its tags, as they are read without memory.
#[derive(Drop)]
pub struct Bare<'v> {
    id: [u8; 32],
    pubkey: [u8; 32],
    created_at: u64,
    kind: u16,
    content: &'v str,
    sig: [u8; 64],
}

// The fields but the tags, once all was tested but whether the id is right.
fn bare_of<'v>(value: &'v Value) -> Result<Bare<'v>, EventFault>
    ensures passes { OnOk result (Passes (view value.now)) }
    ensures ok { IfOk result (HasBare (view value.now)) }
    ensures err { IfErr result (λ f. Refuses (view value.now) f) }
{
    let shapes = shapes_of(value)?;
    let id = hex32_at(shapes.id, EventField::Id)?;
    let pubkey = hex32_at(shapes.pubkey, EventField::Pubkey)?;
    let sig = hex64_at(shapes.sig, EventField::Sig)?;
    let created_at = below(shapes.created_at, u64::MAX, EventField::CreatedAt)?;
    let kind = below(shapes.kind, 65536, EventField::Kind)?;
    Ok(Bare {
        id,
        pubkey,
        created_at,
        kind: kind as u16,
        content: shapes.content,
        sig,
    })
}

fn parts_of(alloc: Global, value: &Value) -> Result<Parts, EventFault>
    ensures ok { IfOk result (λ p. HasFields (view value.now)
        (record { id = p.id; draft = p.draft; sig = p.sig })) }
    ensures err { IfErr result (λ f. Refuses (view value.now) f) }
{
    // Only what passes the tests takes memory, so that want of it is told of nothing else.
    let bare = bare_of(value)?;
    let content = Text::new(String::from_str(alloc, bare.content)?);
    let tags = tags_of(alloc, value)?;
    let draft = Draft {
        pubkey: bare.pubkey,
        created_at: bare.created_at,
        kind: bare.kind,
        tags,
        content,
    };
    Ok(Parts {
        id: Id(bare.id),
        draft,
        sig: bare.sig,
    })
}

fn read_event(alloc: Global, value: &Value) -> Result<Event, EventFault>
    ensures ok { IfOk result (λ e. Reads (view value.now) e) }
    ensures err { IfErr result (λ f. Refuses (view value.now) f) }
{
    let Parts { id, draft, sig } = parts_of(alloc, value)?;
    match Event::from_parts(alloc, id, draft, sig)? {
        Some(event) => Ok(event),
        None => Err(EventFault::WrongId),
    }
}

impl Event {
    /// The event that the JSON value is (NIP-01), or the first fault that it has. Unknown fields are passed over.
    pub fn from_json(alloc: Global, value: &Value) -> Result<Event, EventFault>
        ensures event { IfOk result (λ e. Reads (view value.now) e) }
        ensures no_other { IfOk result (λ e. (other : EventView) → Reads (view value.now) other → other ≡ e) }
        ensures fault { IfErr result (λ f. Refuses (view value.now) f) }
        ensures no_event { IfErr result (λ f. f ≢ EventFault.Memory → (e : EventView) → ¬ Reads (view value.now) e) }
    {
        let read = read_event(alloc, value);
        read
    }
}
