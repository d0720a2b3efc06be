//! Long texts, which are read one at a time.
ghost use Rattle.std.specs.Prelude.{◌≡◌, map, IfOk, IfErr};
ghost use mathlib.Core.List.{IsPrefix};
ghost use Rattle.nostr_wire.specs.Forms.{relay_form};
ghost use Rattle.relay_core.specs.Acknowledging.{AcknowledgeNone};
ghost use Rattle.relay_core.specs.Faults.{GoesOnBy};
ghost use Rattle.relay_core.specs.Serving.{Serves};
ghost use Rattle.relay_core.specs.Turns.{turn_of};
ghost use Rattle.ws_socket.specs.Faults.{IsOfStream};

use crate::fault::on_link;
use event_store::{Naming, Reader};
use event_text::EventScratch;
use relay_core::{Conn, Step};
use std::sync::{Mutex, Wait};
use ws_socket::LinkFault;

/// A text of more bytes is long. What is read of it may take a hundred times as much memory meanwhile.
const LONG_TEXT: usize = 262_144;

/// How turns read texts.
#[derive(Drop)]
pub struct Turns<'t> {
    /// Held while a long text is read: of connections that share it one is read at a time.
    pub lock: &'t Mutex<()>,
    /// Whether these turns read long texts. Else a turn ends before one, and the next begins with it.
    pub reads_long: bool,
    /// What reading takes of memory beside what is read. One connection after another may use it.
    pub scratch: &'t mut EventScratch,
}

impl<'t> Turns<'t> {
    /// Whether the text is read in this turn.
    pub fn admits(&self, text: &str) -> bool {
        self.reads_long || text.len() <= LONG_TEXT
    }
}

/// Serves the text. A long one waits while another is read.
pub fn serve_text<W: Wait, J: Naming>(
    rt: &W,
    conn: &mut Conn,
    reader: &mut Reader<J>,
    turns: &mut Turns<'_>,
    text: &str,
) -> Result<Step, LinkFault>
    ensures served { IfOk result (λ s. GoesOnBy (λ old new. Serves conn.old.limits reader.new text.now old (turn_of s new)) conn.old.kept conn.new.kept) }
    ensures limits { conn.new.limits ≡ conn.old.limits }
    ensures none_acknowledged { IfOk result (λ s. AcknowledgeNone (map relay_form s.out.items)) }
    ensures fault { IfErr result IsOfStream }
    ensures reader { IsPrefix reader.old reader.new }
{
    if text.len() <= LONG_TEXT {
        return on_link(conn.serve_with(reader, turns.scratch, text));
    }
    let held = turns.lock.lock(rt);
    let step = on_link(conn.serve_with(reader, turns.scratch, text));
    drop(held);
    step
}
