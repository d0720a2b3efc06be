// The names in the messages that carry events.
ghost use Rattle.std.specs.Prelude.{◌≡◌, ◌++◌, true, codes, IfOk, string_bytes};
ghost use Rattle.std.specs.Arc.{arc_value};
ghost use Rattle.serde_json.specs.Written.{compact_text};
ghost use Rattle.nostr_event.specs.EventView.{EventView};
ghost use Rattle.nostr_event.specs.EventJson.{object_of};
ghost use Rattle.nostr_wire.specs.Elements.{is_sub};
ghost use Rattle.nostr_wire.specs.Beginnings.{beginning};
ghost use Rattle.nostr_wire.specs.Forms.{event_form};
ghost use Rattle.nostr_wire.specs.Writing.{text_of};

use crate::lists::Sub;
use json::Writer;
use std::alloc::{AllocError, Global};
use std::marker::Model;
use std::sync::Arc;

// How the message of an event for this subscription begins. It is made where room is.
fn begun(room: String, name: &str) -> Result<String, AllocError>
    ensures { IfOk result (λ s. string_bytes s ≡ beginning name.now) }
{
    let mut bytes = room.into_bytes();
    bytes.clear();
    let mut names = Writer::new(bytes);
    names.begin_array()?;
    names.string("EVENT")?;
    names.string(name)?;
    let Ok(mut out) = String::from_utf8(names.into_inner()) else {
        unreachable!()
    };
    out.push_str(",")?;
    Ok(out)
}

/// A name with how the messages of events for it begin, which so is written once for all of them. Contracts see it as its UTF-8 bytes.
#[derive(Drop)]
pub struct Heading {
    sub: Sub,
    text: String,
}

impl Model for Heading {
    ghost use Rattle.std.specs.Prelude.{List, ℕ, ◌≡◌, true, string_bytes};
    ghost use Rattle.nostr_wire.specs.Elements.{is_sub};
    ghost use Rattle.nostr_wire.specs.Beginnings.{beginning};

    ghost Value = { List ℕ };

    ghost view = { λ h. h.sub };

    ghost invariant = { λ h. (is_sub h.sub ≡ true) × (string_bytes h.text ≡ beginning h.sub) };
}

impl Heading {
    pub fn new(alloc: Global, sub: Sub) -> Result<Heading, AllocError>
        ensures { IfOk result (λ h. h ≡ sub) }
    {
        let text = begun(String::new(alloc), sub.as_str())?;
        Ok(Heading { sub, text })
    }

    /// The name.
    pub fn as_str(&self) -> &str
        ensures text { result.now ≡ self.now }
        ensures name { is_sub self.now ≡ true }
    {
        self.sub.as_str()
    }

    // The beginning, where room is.
    fn text_in(&self, room: String) -> Result<String, AllocError>
        ensures text { IfOk result (λ s. string_bytes s ≡ beginning self.now) }
        ensures name { IfOk result (λ _. is_sub self.now ≡ true) }
    {
        let mut out = room;
        out.clear();
        out.push_str(self.text.as_str())?;
        Ok(out)
    }
}

// A name, its own or shared.
#[derive(Drop)]
pub enum NameKind {
    Own(Sub),
    Shared(Arc<Heading>),
}

/// The name in an event's message, which may be shared with others, seen as its UTF-8 bytes.
#[derive(Drop)]
pub struct Name {
    kind: NameKind,
}

impl Model for Name {
    ghost use Rattle.std.specs.Prelude.{List, ℕ};
    ghost use Rattle.nostr_wire.specs.Names.{name_at};

    ghost Value = { List ℕ };

    ghost view = { λ n. name_at n.kind };
}

impl Name {
    pub fn own(sub: Sub) -> Name
        ensures { result ≡ sub }
    {
        Name {
            kind: NameKind::Own(sub),
        }
    }

    /// The same name, at the cost of a reference.
    pub fn shared(heading: &Arc<Heading>) -> Result<Name, AllocError>
        ensures { IfOk result (λ n. n ≡ arc_value heading.now) }
    {
        Ok(Name {
            kind: NameKind::Shared(Arc::try_clone(heading)?),
        })
    }

    pub fn as_str(&self) -> &str
        ensures text { result.now ≡ self.now }
        ensures name { is_sub self.now ≡ true }
    {
        match &self.kind {
            NameKind::Own(sub) => sub.as_str(),
            NameKind::Shared(heading) => heading.as_str(),
        }
    }

    /// How the message of an event for it begins: behind that stand the event's own text and a `]`. It is made where room is, of which
    /// what stands there is lost.
    pub fn begin(&self, room: String) -> Result<String, AllocError>
        ensures text { IfOk result (λ s. string_bytes s ≡ beginning self.now) }
        ensures message { IfOk result (λ s. (e : EventView) → (string_bytes s ++ compact_text (object_of e)) ++ codes "]" ≡ text_of (event_form self.now e)) }
        ensures name { IfOk result (λ _. is_sub self.now ≡ true) }
    {
        match &self.kind {
            NameKind::Own(sub) => begun(room, sub.as_str()),
            NameKind::Shared(heading) => heading.text_in(room),
        }
    }
}
