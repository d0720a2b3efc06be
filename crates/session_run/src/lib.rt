//! Sessions with relays, the plan of what they have and the store lacks, and fetching by it, in rounds.
#![tactic(auto)]

mod fetching;
mod host;
mod links;
mod pace;
mod pass;
mod progress;
mod text;
mod told;

pub use fetching::Counts;
pub use host::Host;
pub use links::{connected, name_of};
pub use pass::{Compared, compare, fetch_rounds};
pub use progress::{Nowhere, Progress, RelayLine};
pub use text::{put_counts, put_ends, put_plan};
pub use told::Heard;
