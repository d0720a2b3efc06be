//! Why a link failed, as far as it is known in words.
ghost use Rattle.ws_socket.specs.Faults.{IsOfStream};

use nostr_event::Text;
use std::fmt;
use tungstenite::Error as SocketError;
use wire::Fault;
use ws_socket::{LinkFault, Reason, Told};

/// Why a link failed, and what the relay said last that wasn't asked for (`NOTICE` of NIP-01).
pub struct Notes {
    reason: Option<Reason>,
    notice: Option<Text>,
}

// By hand, as a derived one is proved anew wherever a value is dropped.
impl Drop for Notes {
    fn drop(self) {
        let Self {
            reason: _,
            notice: _,
        } = self;
    }
}

impl Notes {
    /// Nothing is known.
    pub fn none() -> Notes {
        Notes {
            reason: None,
            notice: None,
        }
    }

    /// The link failed for this reason.
    pub fn of(reason: Reason) -> Notes {
        Notes {
            reason: Some(reason),
            notice: None,
        }
    }

    /// Why the link failed, if it did.
    pub fn reason(&self) -> Option<&Reason> {
        self.reason.as_ref()
    }

    /// Notes the reason.
    pub fn tell(&mut self, reason: Reason) {
        self.reason = Some(reason);
    }

    /// Notes what the relay said.
    pub fn hear(&mut self, notice: Text) {
        self.notice = Some(notice);
    }

    /// Notes why a socket failed, and gives the fault.
    pub fn failed(&mut self, error: SocketError) -> LinkFault
        ensures { IsOfStream result }
    {
        self.reason = Some(Reason::of_socket(&error));
        LinkFault::from(error)
    }

    /// Notes why a wire failed, and gives the fault.
    pub fn broken(&mut self, fault: Fault) -> LinkFault
        ensures { IsOfStream result }
    {
        match fault {
            Fault::Stream(error) => self.failed(SocketError::Io(error)),
            Fault::Frame(error) => self.failed(SocketError::from(error)),
        }
    }
}

impl fmt::Display for Notes {
    fn fmt<W: fmt::Write>(&self, f: &mut fmt::Formatter<W>) -> fmt::Result {
        match &self.reason {
            Some(reason) => write!(f, "{reason}")?,
            None => write!(f, "failed")?,
        }
        match &self.notice {
            Some(text) => write!(f, " after NOTICE {}", Told(text.as_str())),
            None => Ok(()),
        }
    }
}

/// What tells why it failed.
pub trait Explains {
    /// Why it failed, and what was said before.
    fn notes(&self) -> &Notes;
}
