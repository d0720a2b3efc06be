//! What is said over a wire, and what is heard.

ghost use Rattle.std.specs.Prelude.{OnOk, IfOk};
ghost use Rattle.wire.specs.Line.{Hands, talk_of};
ghost use Rattle.wire.specs.Talk.{Says, Grows};
ghost use Rattle.wire.specs.Steps.{Comes, MayCome};

use crate::fault::Fault;
use crate::heard::{Heard, Message};
use crate::link::Wire;
use std::io;
use std::io::{ErrorKind, Read, Write};
use websocket::protocol::MaskKeys;

impl<S: Read + Write, K: MaskKeys> Wire<S, K> {
    /// Sends a text, behind what waits.
    pub fn say(&mut self, text: &str) -> Result<(), Fault>
        ensures said { OnOk result (Says (talk_of self.old) (talk_of self.new) text.now) }
        ensures grows { Grows (talk_of self.old) (talk_of self.new) }
    {
        self.put_text(text)?;
        self.send()?;
        Ok(())
    }

    /// Says a close, behind what waits.
    pub fn close(&mut self) -> Result<(), Fault> {
        self.put_close()?;
        self.send()?;
        Ok(())
    }

    /// Reads until a message comes, and tells it. Before each read of the stream what waits is sent, as far as the stream takes
    /// it.
    pub fn listen(&mut self) -> Result<Message, Fault>
        ensures comes { IfOk result (Comes (talk_of self.old) (talk_of self.new)) }
        ensures grows { Grows (talk_of self.old) (talk_of self.new) }
    {
        for _turn in 0..u64::MAX {
            match self.step()? {
                Some(message) => return Ok(message),
                None => {}
            }
        }
        Err(Fault::Stream(io::Error::from(ErrorKind::TimedOut)))
    }

    // Sends what waits, and reads a frame, or more of the stream.
    fn step(&mut self) -> Result<Option<Message>, Fault>
        ensures may_come { IfOk result (MayCome (talk_of self.old) (talk_of self.new)) }
        ensures grows { Grows (talk_of self.old) (talk_of self.new) }
    {
        self.send_some()?;
        match self.hear()? {
            Heard::Text(text) => Ok(Some(Message::Text(text))),
            Heard::Binary => Ok(Some(Message::Binary)),
            Heard::Other => Ok(Some(Message::Other)),
            Heard::Close => Ok(Some(Message::Close)),
            Heard::Part => Ok(None),
            Heard::Nothing => {
                self.fill()?;
                Ok(None)
            }
        }
    }

    // Sends what waits, as far as the stream takes it.
    fn send_some(&mut self) -> io::Result<()>
        ensures hands { Hands S.contents self.old self.new }
    {
        match self.send() {
            Ok(()) => Ok(()),
            Err(error) => {
                if error.kind() == ErrorKind::WouldBlock {
                    Ok(())
                } else {
                    Err(error)
                }
            }
        }
    }
}
