// What clients and relays say.
use crate::lists::{Bytes, Filters, Sub};
use crate::names::Name;
use item_key::Id;
use nostr_event::{Event, Text};
use nostr_filter::Filter;
use std::sync::Arc;

/// What a client says.
#[derive(Drop)]
pub enum FromClient {
    /// An event to be taken in (NIP-01).
    Event(Arc<Event>),
    /// A request for the events that one of the filters matches, now and from now on (NIP-01).
    Req {
        sub: Sub,
        filters: Filters,
    },
    /// The end of a request (NIP-01).
    Close {
        sub: Sub,
    },
    /// The first message of a Negentropy session over the events that the filter matches (NIP-77).
    NegOpen {
        sub: Sub,
        filter: Filter,
        message: Bytes,
    },
    /// A further message of that session.
    NegMsg {
        sub: Sub,
        message: Bytes,
    },
    /// The end of a session.
    NegClose {
        sub: Sub,
    },
}

/// What a relay says.
#[derive(Drop)]
pub enum FromRelay {
    /// An event that a request asks for (NIP-01).
    Event { sub: Name, event: Arc<Event> },
    /// Whether an event was taken in (`OK` of NIP-01).
    Okay { id: Id, taken: bool, text: Text },
    /// All stored events of a request were sent (NIP-01).
    Eose { sub: Sub },
    /// A request was ended or refused (NIP-01).
    Closed { sub: Sub, text: Text },
    /// Something to be read by people (NIP-01).
    Notice { text: Text },
    /// A message of a Negentropy session (NIP-77).
    NegMsg { sub: Sub, message: Bytes },
    /// A session was ended or refused (NIP-77).
    NegErr { sub: Sub, reason: Text },
}
