//! The rule of the store: what each reader has seen is a beginning of what is published.
use crate::name::Naming;
use crate::shown::Shown;
use crossbeam_utils::rule::{Outcome, Protocol};
use left_right::reader::Reader;
use left_right::writer::Writer;
use nostr_event::Event;
use std::collections::LinkedList;
use std::marker::PhantomData;

/// What was seen. No value of it is made.
pub struct View {
    pub seen: LinkedList<Event>,
}

pub struct Published<J: Naming> {
    of: PhantomData<J>,
}

impl<J: Naming> Protocol<Shown, View> for Published<J> {
    ghost use Rattle.event_store.specs.Rules.{Keeps, newcomer};

    ghost holds = { Keeps J.book };

    ghost first = { newcomer };
}

/// A step that sees what is published.
pub struct Sees<J: Naming> {
    of: PhantomData<J>,
}

impl<J: Naming> Outcome<Shown, View> for Sees<J> {
    ghost use Rattle.event_store.specs.Rules.{Seen};

    ghost then = { Seen J.book };
}

pub type Side<J> = Reader<Shown, View, Published<J>>;

pub type Pen<J> = Writer<Shown, Shown, View, Published<J>>;
