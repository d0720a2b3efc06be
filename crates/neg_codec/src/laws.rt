//! Laws of messages.

ghost use Rattle.neg_codec.specs.Laws.{OneMessage, OneStretch, RoundTrip};

/// Each key lies in just one stretch of a message.
pub fn one_stretch()
    ensures { OneStretch }
{}

/// Bytes spell one message at most.
pub fn one_message()
    ensures { OneMessage }
{}

/// What `encode` gives for a message is read by `decode` as the message, within 1,048,576 bytes.
pub fn round_trip()
    ensures { RoundTrip }
{}
