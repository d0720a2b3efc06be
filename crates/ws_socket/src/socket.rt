//! The limits of a socket.

use websocket::protocol::WebSocketConfig;

/// How many bytes a message that is read may have. A text of this profile has at most 2,200,000, and a longer one that is
/// answered has to be read first.
const MOST_BYTES: usize = 4_194_304;

/// How many bytes one read of a stream asks for, where much is to come. Each connection keeps twice as many.
pub const MANY_BYTES: usize = 24_576;

/// Longer messages and frames are refused before they are read.
pub fn limits() -> WebSocketConfig {
    WebSocketConfig::default()
        .max_message_size(Some(MOST_BYTES))
        .max_frame_size(Some(MOST_BYTES))
}
