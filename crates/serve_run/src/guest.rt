//! A connection that is served turn by turn.

use client_hall::{Client, Enter, Line};
use event_log::Keeper;
use event_store::{Desk, Naming, Reader};
use relay_core::RelayLimits;
use std::alloc::Global;
use std::sync::{Arc, Mutex, Wait};
use ws_serve::{Greeted, Greeting, Talk, Turned, Turns};
use ws_socket::LinkFault;

/// While more bytes than these wait for a client, nothing further of it is read, and nothing published is put behind them.
const MOST_WAITING: usize = 65_536;

/// A message of which more bytes than these have come is long.
const LONG: usize = 262_144;

/// How far a connection is.
#[derive(Drop)]
enum Stage<J: Naming> {
    Greeting(Greeting<Line>),
    Talking(Talk<Line, J>),
}

/// What a turn has come to. None tells that the connection has ended: what was answered goes out then, as far as it is taken.
fn outcome<J: Naming>(
    talk: &mut Talk<Line, J>,
    turned: Result<Turned, LinkFault>,
) -> Option<Turned> {
    match turned {
        Ok(Turned::Over) if !talk.has_waiting() => None,
        Ok(turned) => Some(turned),
        Err(_) => {
            let _ = talk.send();
            None
        }
    }
}

/// How far a connection is behind a step of its handshake, and what it is due. None tells that no memory was found.
fn stage_behind<J: Naming>(
    alloc: Global,
    greeted: Greeted<Line>,
    limits: RelayLimits,
) -> Option<(Stage<J>, Turned)> {
    match greeted {
        Greeted::Waits(rest) => Some((Stage::Greeting(rest), Turned::Idle)),
        Greeted::Done(line) => {
            let talk = Talk::new(alloc, line, limits, MOST_WAITING).ok()?;
            Some((Stage::Talking(talk), Turned::Ready))
        }
    }
}

/// A connection that is served turn by turn.
pub struct Guest<J: Naming> {
    client: Arc<Client>,
    // None once it has ended.
    stage: Option<Stage<J>>,
    // How many bytes have come behind its last text.
    behind: usize,
}

// By hand, as a derived one is proved anew wherever a value is dropped.
impl<J: Naming> Drop for Guest<J> {
    fn drop(self) {
        let Self {
            client: _,
            stage: _,
            behind: _,
        } = self;
    }
}

impl<J: Naming> Enter for Guest<J> {
    fn enter(alloc: Global, client: Arc<Client>, line: Line) -> Guest<J> {
        Guest {
            client,
            stage: Some(Stage::Greeting(Greeting::new(alloc, line))),
            behind: 0,
        }
    }
}

impl<J: Naming> Guest<J> {
    /// Whether something may be published for it.
    pub fn has_subs(&self) -> bool {
        match &self.stage {
            Some(Stage::Talking(talk)) => talk.has_subs(),
            _ => false,
        }
    }

    /// Whether bytes wait until its client takes them.
    pub fn has_waiting(&self) -> bool {
        match &self.stage {
            Some(Stage::Talking(talk)) => talk.has_waiting(),
            _ => false,
        }
    }

    /// Whether much of a message has come, and not all.
    pub fn is_in_long(&self) -> bool {
        self.behind > LONG
    }

    /// Sends a ping, unless something waits.
    pub fn ping(&self) {
        if !self.has_waiting() {
            self.client.ping();
        }
    }

    /// Gives it a turn. None tells that it has ended.
    pub fn turn<W: Wait, D: Wait + Drop, H: Keeper<J>>(
        &mut self,
        rt: &W,
        alloc: Global,
        reader: &mut Reader<J>,
        desk: &Mutex<Desk<J, D>>,
        keeper: &H,
        turns: &mut Turns<'_>,
        limits: RelayLimits,
    ) -> Option<Turned> {
        match &mut self.stage {
            Some(Stage::Talking(talk)) => {
                let texts = talk.texts();
                let turned = talk.turn(rt, alloc, reader, desk, keeper, turns);
                let is_same = talk.texts() == texts;
                let turned = outcome(talk, turned);
                self.note_brought(is_same);
                self.end_unless(turned)
            }
            Some(Stage::Greeting(_)) => self.greet(alloc, limits),
            None => None,
        }
    }

    /// Tells its client what was published. None tells that it has ended.
    pub fn tell(&mut self, alloc: Global, reader: &mut Reader<J>) -> Option<Turned> {
        match &mut self.stage {
            Some(Stage::Talking(talk)) => {
                let told = talk.tell(alloc, reader);
                let told = outcome(talk, told);
                self.end_unless(told)
            }
            Some(Stage::Greeting(_)) => Some(Turned::Idle),
            None => None,
        }
    }

    // Notes how many bytes came with a turn, behind its last text if that is the same.
    fn note_brought(&mut self, is_same: bool) {
        let brought = self.client.brought();
        self.behind = if is_same {
            self.behind.saturating_add(brought)
        } else {
            0
        };
    }

    // It has ended unless a turn came to something.
    fn end_unless(&mut self, turned: Option<Turned>) -> Option<Turned> {
        if turned.is_none() {
            self.stand(None);
        }
        turned
    }

    // How far it is from now on.
    fn stand(&mut self, stage: Option<Stage<J>>) {
        self.stage = stage;
    }

    // Goes on with its handshake.
    fn greet(&mut self, alloc: Global, limits: RelayLimits) -> Option<Turned> {
        let Some(Stage::Greeting(greeting)) = self.stage.take() else {
            return None;
        };
        match greeting.go_on() {
            Ok(greeted) => {
                let (stage, turned) = stage_behind(alloc, greeted, limits)?;
                self.stand(Some(stage));
                Some(turned)
            }
            Err(fault) => {
                if matches!(fault, LinkFault::Wire) {
                    self.client.turn_away();
                }
                None
            }
        }
    }

    /// It has ended.
    pub fn leave(self) {
        self.client.end();
    }
}
