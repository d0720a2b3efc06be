//! Why a wire failed.

use std::io;
use websocket::error::Error as FrameError;

/// Why a wire failed.
#[derive(Drop)]
pub enum Fault {
    /// The stream failed, ended, would block or found no memory.
    Stream(io::Error),
    /// The other side broke RFC 6455 or a limit, or no memory was found.
    Frame(FrameError),
}

impl From<io::Error> for Fault {
    fn from(error: io::Error) -> Fault {
        Fault::Stream(error)
    }
}

impl From<FrameError> for Fault {
    fn from(error: FrameError) -> Fault {
        Fault::Frame(error)
    }
}
