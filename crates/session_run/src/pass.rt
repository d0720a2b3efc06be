//! What is done with relays: their events are compared with the store's, and what it lacks is fetched.

ghost use Rattle.std.specs.Prelude.{◌≡◌, ◌≢◌, ◌≤◌, ◌<◌, ◌^◌, ◌-◌, ℕ, All, List, length, map, IfOk, OnOk};
ghost use Rattle.std.specs.Io.KnownBytes.{Appends};
ghost use Rattle.std.specs.Thread.{IsSend};
ghost use Rattle.std.specs.List.Sorted.{IsPermutation};
ghost use Rattle.item_roll.specs.Parts.{IsRoll};
ghost use Rattle.nostr_event.specs.EventView.{EventView, item_of};
ghost use Rattle.event_table.specs.Events.{matching};
ghost use Rattle.fetch_plan.specs.declared.cell.Cell.{Cell};
ghost use Rattle.sharing.specs.declared.TheConstants.{RELAYS, MOST_BASE};
ghost use Rattle.sharing.specs.Bases.{base_of};
ghost use Rattle.session_run.specs.Lines.{round_text};
ghost use Rattle.session_run.specs.Rounds.{AreCounted, BeginAt, CameOver, IsNext, begin_at};
ghost use Rattle.session_run.specs.Synced.{IsSynced};
ghost use Rattle.session_run.specs.Fetched.{IsFetched};

use crate::fetching::{
    Counts, Fetcher, Round, asked_of, counts_of, fetched, finished_of, planned, sources_of,
};
use crate::host::Host;
use crate::links::{finish_all, linked_all};
use crate::progress::Progress;
use crate::text::put_round;
use crate::told::{Heard, ToldPeer, all_fetched, all_spoken};
use event_store::{Desk, Naming, Reader, Snapshot};
use fetch_plan::Plan;
use item_roll::Roll;
use mirror_core::{SyncFault, Synced, failover_plan, grown, sync_plan};
use mirror_settings::Settings;
use neg_session::SessionLimits;
use nostr_filter::Filter;
use offer_table::{Bases, OfferTable, RelaySet};
use sharing::SLOTS;
use std::alloc::{AllocError, Global};
use std::io::Write;
use std::net::{Net, TcpListener, TcpStream};
use std::random::RandomSource;
use std::sync::{Mutex, Wait};
use std::thread::Threads;
use store_run::{Keeping, Refusal, keep_beside, say};
use stream_laws::plan_over_streams;
use tungstenite::RandomKeys;
use ws_link::WsPeer;

/// Lets a relay's load begin with this one, if it is a relay and the load one that it may begin with.
fn begin_load(bases: &mut Bases, relay: usize, load: u64)
    ensures begun { relay < RELAYS → load ≤ MOST_BASE → base_of bases.new relay ≡ load }
    ensures others { (r : ℕ) → r ≢ relay → base_of bases.new r ≡ base_of bases.old r }
{
    if relay < SLOTS {
        let _ = bases.set(relay as u16, load);
    }
}

/// The loads that the relays begin with.
fn bases_of(loads: &[u64]) -> Bases
    ensures { BeginAt loads.now result }
{
    let mut bases = Bases::none();
    for relay in 0..loads.len() {
        begin_load(&mut bases, relay, loads[relay]);
    }
    bases
}

/// What sessions with relays came to.
#[derive(Drop)]
pub struct Compared {
    /// What is known of each relay.
    pub heard: Vec<Heard>,
    /// The time in the middle of those of the events that were compared, in seconds since 1970, if there are any.
    pub middle: Option<u64>,
    /// How the sessions ended, and the plan that was made of what they found, or why none was made.
    pub done: Result<Synced, SyncFault>,
}

/// The time in the middle of those of the items.
fn middle_of(roll: &Roll) -> Option<u64> {
    let count = roll.len();
    if count == 0 {
        return None;
    }
    Some(roll.get(count / 2).time)
}

/// How many of the peers are asked.
fn asked_in<Q, R, P>(peers: &[ToldPeer<'_, Q, R, P>]) -> usize {
    let mut count = 0usize;
    for told in peers {
        if told.is_asked {
            count = count.saturating_add(1);
        }
    }
    count
}

/// What was heard of the peers, in their order.
fn heard_in<Q, R: Wait, P>(
    rt: &R,
    alloc: Global,
    peers: &[ToldPeer<'_, Q, R, P>],
) -> Result<Vec<Heard>, AllocError> {
    let mut heard = Vec::new(alloc);
    for told in peers {
        heard.push(*told.heard.lock(rt))?;
    }
    Ok(heard)
}

/// Ends the sessions with these peers: what they came to.
fn end_sessions<
    R: Net<Listener = TcpListener, Stream = TcpStream> + RandomSource + Wait,
    P: Write + Send,
>(
    rt: &R,
    alloc: Global,
    peers: Vec<ToldPeer<'_, WsPeer<TcpStream, RandomKeys<&R>>, R, P>>,
    snapshot: &Snapshot,
    done: Result<Synced, SyncFault>,
) -> Result<Compared, Refusal>
    ensures { IfOk result (λ c. c.done ≡ done) }
{
    let heard = heard_in(rt, alloc, peers.as_slice());
    finish_all(peers);
    Ok(Compared {
        heard: heard?,
        middle: middle_of(snapshot.roll()),
        done,
    })
}

/// Sessions with the relays of the settings, but for those that are left out, over the events of the snapshot, and the plan made of
/// what they found. The events are those that the filter matches.
fn compare_over<
    R: Net<Listener = TcpListener, Stream = TcpStream> + RandomSource + Threads + Wait + Sync,
    P: Write + Send,
>(
    rt: &R,
    alloc: Global,
    settings: &Settings,
    filter: &Filter,
    left_out: RelaySet,
    snapshot: &Snapshot,
    progress: &Progress<P>,
) -> Result<Compared, Refusal>
    requires { IsRoll snapshot.now.roll }
    ensures { (seen : List EventView) → IsPermutation (map item_of (matching filter.now seen)) snapshot.now.roll
        → IfOk result (λ c. IfOk c.done (λ done. (bases : List ℕ) × BeginAt settings.now.bases bases × IsSynced (record settings.now { filter = filter.now }) bases seen done.ends.items done.table done.plan)) }
{
    let mut peers = linked_all(rt, alloc, settings, filter, left_out, progress)?;
    progress.tell(rt, asked_in(peers.as_slice()), "relays are asked");
    let bases = bases_of(settings.bases.as_slice());
    let limits = SessionLimits::default();
    let asked = peers.as_mut_slice();
    let done = sync_plan(rt, alloc, asked, snapshot, &bases, &limits);
    all_spoken(asked);
    plan_over_streams::<ToldPeer<'_, WsPeer<TcpStream, RandomKeys<&R>>, R, P>>();
    end_sessions(rt, alloc, peers, snapshot, done)
}

/// Sessions with the relays of the settings, but for those that are left out, over the events that the filter matches, and the plan
/// made of what they found.
pub fn compare<
    J: Naming,
    R: Net<Listener = TcpListener, Stream = TcpStream> + RandomSource + Threads + Wait + Sync,
    P: Write + Send,
>(
    rt: &R,
    alloc: Global,
    settings: &Settings,
    filter: &Filter,
    left_out: RelaySet,
    reader: &mut Reader<J>,
    progress: &Progress<P>,
) -> Result<Compared, Refusal>
    ensures { IfOk result (λ c. IfOk c.done (λ done. (bases : List ℕ) × BeginAt settings.now.bases bases × IsSynced (record settings.now { filter = filter.now }) bases reader.new done.ends.items done.table done.plan)) }
{
    let snapshot = reader.pin(alloc, filter)?;
    progress.tell(rt, snapshot.events().len(), "events are compared");
    compare_over(rt, alloc, settings, filter, left_out, &snapshot, progress)
}

/// Fetches what a plan gives from these sources, each at the relay beside it, and tells what became of each of its ids. What they give
/// is kept in the file meanwhile.
fn fetch_from<
    J: Naming + Send + Sync,
    D: Wait + Drop + Send + Sync,
    R: Host,
    P: Write + Send,
    E: Write + Send + Drop,
>(
    rt: &R,
    alloc: Global,
    plan: &Plan,
    sources: &mut [Fetcher<'_, R, P>],
    relays: &[u16],
    desk: &Mutex<Desk<J, D>>,
    keeping: &Keeping<J, E>,
) -> Result<Round, Refusal>
    requires { All (λ s. s.source.faults < 2 ^ 64 - 1) sources.old }
    ensures cells { IfOk result (λ round. length round.cells.items ≡ length plan.now.gives) }
    ensures came { IfOk result (λ round. CameOver plan.now.gives round.cells.items) }
{
    keep_beside(
        rt,
        keeping,
        ||
            requires { IsSend J.row × IsSend D.row × IsSend P.row × All (λ s. s.source.faults < 2 ^ 64 - 1) sources.now }
            ensures cells { IfOk result (λ round. length round.cells.items ≡ length plan.entry.now.gives) }
            ensures came { IfOk result (λ round. CameOver plan.entry.now.gives round.cells.items) }
        {
            let round = fetched(rt, alloc, plan, sources, relays, desk);
            all_fetched(sources);
            round
        },
    )
}

/// The same from these relays, which are connected to anew.
fn fetch_round<
    J: Naming + Send + Sync,
    D: Wait + Drop + Send + Sync,
    R: Host,
    P: Write + Send,
    E: Write + Send + Drop,
>(
    rt: &R,
    alloc: Global,
    settings: &Settings,
    relays: &[u16],
    plan: &Plan,
    desk: &Mutex<Desk<J, D>>,
    keeping: &Keeping<J, E>,
    progress: &Progress<P>,
) -> Result<Round, Refusal>
    ensures cells { IfOk result (λ round. length round.cells.items ≡ length plan.now.gives) }
    ensures came { IfOk result (λ round. CameOver plan.now.gives round.cells.items) }
{
    progress.tell(rt, plan.len(), "ids are planned");
    let (mut sources, relays) = sources_of(rt, alloc, settings, relays, progress)?;
    progress.begin(rt, plan.len());
    progress.tell(rt, sources.len(), "connections fetch");
    let (sources, relays) = (sources.as_mut_slice(), relays.as_slice());
    let round = fetch_from(rt, alloc, plan, sources, relays, desk, keeping)?;
    progress.tell_counts(rt, &counts_of(round.cells.as_slice()));
    progress.tell_full(rt, round.is_full);
    Ok(round)
}

/// The same from those of the relays that didn't stop, or are given ids.
fn ask_round<
    J: Naming + Send + Sync,
    D: Wait + Drop + Send + Sync,
    R: Host,
    P: Write + Send,
    E: Write + Send + Drop,
>(
    rt: &R,
    alloc: Global,
    settings: &Settings,
    relays: &[u16],
    plan: &Plan,
    stopped: RelaySet,
    desk: &Mutex<Desk<J, D>>,
    keeping: &Keeping<J, E>,
    progress: &Progress<P>,
) -> Result<Round, Refusal>
    ensures cells { IfOk result (λ round. length round.cells.items ≡ length plan.now.gives) }
    ensures came { IfOk result (λ round. CameOver plan.now.gives round.cells.items) }
{
    let asked = asked_of(alloc, relays, planned(plan), stopped)?;
    fetch_round(
        rt,
        alloc,
        settings,
        asked.as_slice(),
        plan,
        desk,
        keeping,
        progress,
    )
}

/// Prints a later round and its plan.
fn say_round<W: Write>(
    alloc: Global,
    writer: &mut W,
    round: u64,
    plan: &Plan,
) -> Result<(), Refusal>
    ensures { OnOk result (Appends (W.contents writer.old) (W.contents writer.new) (round_text round plan.now)) }
{
    let mut text = String::new(alloc);
    put_round(alloc, &mut text, round, plan)?;
    say(writer, text.as_str())
}

/// A round that another one follows: fetches by the plan, makes the next one of what is left, and tells what became of the ids.
fn ask_and_plan<
    J: Naming + Send + Sync,
    D: Wait + Drop + Send + Sync,
    R: Host,
    P: Write + Send,
    E: Write + Send + Drop,
>(
    rt: &R,
    alloc: Global,
    settings: &Settings,
    relays: &[u16],
    table: &mut OfferTable,
    plan: &mut Plan,
    stopped: &mut RelaySet,
    desk: &Mutex<Desk<J, D>>,
    keeping: &Keeping<J, E>,
    progress: &Progress<P>,
) -> Result<Counts, Refusal>
    ensures { IfOk result (λ counts. (cells : List Cell) × AreCounted cells counts × IsNext (begin_at table.old plan.old) cells (begin_at table.new plan.new)) }
{
    let given = planned(plan);
    let ended = ask_round(
        rt, alloc, settings, relays, plan, *stopped, desk, keeping, progress,
    )?;
    let cells = ended.cells.as_slice();
    let counts = counts_of(cells);
    let bases = grown(&plan.bases(), plan, cells);
    // One that wasn't asked since it stopped hasn't come back.
    *stopped = stopped.minus(given).union(ended.stopped);
    let later = failover_plan(alloc, table, plan, cells, *stopped, &bases)?;
    *plan = later;
    Ok(counts)
}

/// Fetches by the plan, and by a later one of what is left in each further round, up to as many rounds as the settings say, from these
/// relays, and tells what became of the ids. Each later round is printed.
fn fetch_in_rounds<
    J: Naming + Send + Sync,
    D: Wait + Drop + Send + Sync,
    R: Host,
    W: Write,
    P: Write + Send,
    E: Write + Send + Drop,
>(
    rt: &R,
    alloc: Global,
    settings: &Settings,
    relays: &[u16],
    table: &mut OfferTable,
    plan: &mut Plan,
    desk: &Mutex<Desk<J, D>>,
    keeping: &Keeping<J, E>,
    writer: &mut W,
    progress: &Progress<P>,
) -> Result<Counts, Refusal>
    ensures { IfOk result (IsFetched settings.now.rounds (begin_at table.old plan.old) (W.contents writer.old) (W.contents writer.new)) }
{
    let mut all = Counts::none();
    let mut stopped = RelaySet::empty();
    for round in 1..settings.rounds {
        let counts = ask_and_plan(
            rt,
            alloc,
            settings,
            relays,
            table,
            plan,
            &mut stopped,
            desk,
            keeping,
            progress,
        )?;
        all = all.with(&counts);
        if plan.len() == 0 {
            return Ok(all);
        }
        say_round(alloc, writer, round.saturating_add(1), plan)?;
    }
    let ended = ask_round(
        rt, alloc, settings, relays, plan, stopped, desk, keeping, progress,
    )?;
    Ok(all.with(&counts_of(ended.cells.as_slice())))
}

/// The same from the relays whose sessions finished.
pub fn fetch_rounds<
    J: Naming + Send + Sync,
    D: Wait + Drop + Send + Sync,
    R: Host,
    W: Write,
    P: Write + Send,
    E: Write + Send + Drop,
>(
    rt: &R,
    alloc: Global,
    settings: &Settings,
    done: Synced,
    desk: &Mutex<Desk<J, D>>,
    keeping: &Keeping<J, E>,
    writer: &mut W,
    progress: &Progress<P>,
) -> Result<Counts, Refusal>
    ensures { IfOk result (IsFetched settings.now.rounds (begin_at done.table done.plan) (W.contents writer.old) (W.contents writer.new)) }
{
    let Synced {
        ends,
        mut table,
        mut plan,
    } = done;
    let relays = finished_of(alloc, ends)?;
    fetch_in_rounds(
        rt,
        alloc,
        settings,
        relays.as_slice(),
        &mut table,
        &mut plan,
        desk,
        keeping,
        writer,
        progress,
    )
}
