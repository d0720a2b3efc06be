//! Whole sessions with a peer (Negentropy protocol V1).
#![tactic(auto)]

mod fault;
mod limits;
mod local;
mod peer;
mod session;

pub use fault::SessionFault;
pub use limits::{DEFAULT_LIMIT, LEAST_LIMIT, MOST_LIMIT, SessionLimits};
pub use local::{LocalPeer, roll_explains};
pub use neg_initiator::Outcome;
pub use peer::{Pair, Peer, PeerFault};
pub use session::reconcile_with;
