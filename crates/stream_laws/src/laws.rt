//! What rounds of sessions and fetches come to, in terms of what the relays' streams gave and took.

ghost use Rattle.stream_laws.specs.Streams.{PlanIsOverStreams, CellsAreOverStreams};

use event_source::Source;
use event_store::Naming;
use neg_session::Peer;

/// What is proved of a round of sessions and of the plan made of it, told of the peers' logs, is so of the bytes that their streams
/// gave and took, where each log was spoken over its peer's stream.
pub fn plan_over_streams<P: Peer>()
    ensures { PlanIsOverStreams P.log P.faults P.becomes }
{}

/// What is proved of the cells of a fetch, told of the sources' logs, is so of the bytes that their streams gave and took, where each
/// log was fetched over its source's stream.
pub fn cells_over_streams<J: Naming, S: Source>()
    ensures { CellsAreOverStreams J S.log }
{}
