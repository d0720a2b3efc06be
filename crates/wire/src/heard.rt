//! What was read.

/// What a frame says.
#[derive(Drop)]
pub enum Heard {
    /// It is or ends this text.
    Text(String),
    /// It is or ends a message of bytes.
    Binary,
    /// It is a ping or a pong.
    Other,
    /// The other side closes.
    Close,
    /// It is a part of a message, and not the last one.
    Part,
    /// Nothing: it hasn't come whole yet.
    Nothing,
}

/// A message.
#[derive(Drop)]
pub enum Message {
    /// A text.
    Text(String),
    /// Bytes.
    Binary,
    /// A ping or a pong.
    Other,
    /// The other side closes.
    Close,
}
