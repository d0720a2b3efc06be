//! A round: sessions with all peers, and a plan made of what they found.

ghost use Rattle.std.specs.Prelude.{◌≡◌, ◌<◌, ◌^◌, ◌-◌, ℕ, List, All, IfOk, Err, length};
ghost use Rattle.sharing.specs.declared.TheConstants.{RELAYS};
ghost use Rattle.sharing.specs.Bases.{base_of};
ghost use Rattle.fetch_plan.specs.Plan.{IsPlanOf};
ghost use Rattle.mirror_core.specs.Ends.{EachRan};
ghost use Rattle.mirror_core.specs.Tables.{IsTableOf};
ghost use Rattle.mirror_core.specs.Headline.{Headline, PlainHeadline};
ghost use Rattle.mirror_core.specs.declared.fault.SyncFault.TheVariants.{NoRelay, TooMany, TableFull, Memory};
ghost use Rattle.mirror_core.specs.declared.end.End.{End as EndOf};
ghost use Rattle.mirror_core.specs.Full.{NeedTooMany};

use crate::end::End;
use crate::fault::SyncFault;
use crate::sessions::run_sessions;
use event_store::Snapshot;
use fetch_plan::{Plan, plan};
use neg_session::{Peer, SessionLimits};
use offer_table::{Bases, OfferTable};
use sharing::{SLOTS, loads_without_bases};
use std::alloc::Global;
use std::thread::Threads;

/// How the sessions ended, one for each peer, in their order; the table of what those that finished found; and the plan.
#[derive(Drop)]
pub struct Synced {
    pub ends: Vec<End>,
    pub table: OfferTable,
    pub plan: Plan,
}

/// One session with each peer, side by side, over a snapshot of the store, and the plan made of what they found. Peer number i is
/// relay i.
pub fn sync_plan<P: Peer + Send, R: Threads + Sync>(
    rt: &R,
    alloc: Global,
    peers: &mut [P],
    snapshot: &Snapshot,
    bases: &Bases,
    limits: &SessionLimits,
) -> Result<Synced, SyncFault>
    requires { All (λ p. P.faults p < 2 ^ 64 - 1) peers.old }
    ensures ran { IfOk result (λ done. EachRan P.log P.faults P.becomes snapshot.now.roll limits.now peers.old peers.new done.ends.items) }
    ensures table { IfOk result (λ done. IsTableOf 0 done.ends.items done.table) }
    ensures headline { IfOk result (λ done. Headline P.log (base_of bases.now) snapshot.now.roll peers.old peers.new done.ends.items done.table done.plan) }
    ensures plain { IfOk result (λ done. ((r : ℕ) → base_of bases.now r ≡ 0) → PlainHeadline P.log snapshot.now.roll peers.old peers.new done.ends.items done.table done.plan) }
    // The plan is over the bases, and its group is what chains of moves reach.
    ensures planned { IfOk result (λ done. IsPlanOf bases.now done.table.offers done.plan) }
    // Each session ran all the same: where the table would be too large, more ids are needed than it takes.
    ensures full { result ≡ Err TableFull → (ends : List EndOf) × EachRan P.log P.faults P.becomes snapshot.now.roll limits.now peers.old peers.new ends × NeedTooMany ends }
    ensures memory { result ≡ Err Memory → (ends : List EndOf) × EachRan P.log P.faults P.becomes snapshot.now.roll limits.now peers.old peers.new ends }
    // These two are answered just where their cause is there, and nobody is asked.
    ensures none { result ≡ Err NoRelay → (length peers.old ≡ 0) × (peers.new ≡ peers.old) }
    ensures is_none { length peers.old ≡ 0 → result ≡ Err NoRelay }
    ensures many { result ≡ Err TooMany → (RELAYS < length peers.old) × (peers.new ≡ peers.old) }
    ensures are_many { RELAYS < length peers.old → result ≡ Err TooMany }
{
    if peers.is_empty() {
        return Err(SyncFault::NoRelay);
    }
    if peers.len() > SLOTS {
        return Err(SyncFault::TooMany);
    }
    let part = run_sessions(rt, alloc, 0, snapshot.roll(), limits, peers)?;
    let plan = plan(alloc, &part.table, bases)?;
    loads_without_bases();
    Ok(Synced {
        ends: part.ends,
        table: part.table,
        plan,
    })
}
