//! Fetching what a plan gives.

ghost use Rattle.std.specs.Prelude.{◌≡◌, ◌+◌, ◌<◌, ◌^◌, ◌-◌, ◌++◌, ◌∷◌, [], min, All, IfOk, IfSome, Some, None, length, if◌then◌else◌};
ghost use Rattle.fetch_plan.specs.Plan.{IsPlan};
ghost use Rattle.session_run.specs.Rounds.{is_done, is_missed, is_left, AreCounted, IsOverIfFetched};

use crate::host::Host;
use crate::links::{SourcePlace, connect_all, name_of};
use crate::pace::{Paced, SharedPace};
use crate::progress::{Progress, RelayLine};
use crate::told::ToldSource;
use claim_board::{Board, BoardFault, Cell};
use event_source::Source;
use event_store::{Desk, Naming};
use fetch_plan::Plan;
use mirror_core::{End, FetchFault, Stop, fetch_all};
use mirror_settings::Settings;
use offer_table::RelaySet;
use std::alloc::{AllocError, Global};
use std::fmt::Display;
use std::io::Write;
use std::sync::{Mutex, Wait};
use std::thread::Threads;
use store_run::Refusal;
use stream_laws::cells_over_streams;
use tungstenite::RandomKeys;
use ws_link::WsSource;

/// What became of ids.
#[derive(Clone, Copy)]
pub struct Counts {
    pub given: u64,
    pub missed: u64,
    pub left: u64,
}

impl Counts {
    /// Of no ids.
    pub fn none() -> Counts
        ensures given { result.given ≡ 0 }
        ensures missed { result.missed ≡ 0 }
    {
        Counts {
            given: 0,
            missed: 0,
            left: 0,
        }
    }

    /// These of another round as well, whose cells alone are left.
    pub fn with(&self, later: &Counts) -> Counts
        ensures given { result.given ≡ min (self.now.given + later.now.given) (2 ^ 64 - 1) }
        ensures missed { result.missed ≡ min (self.now.missed + later.now.missed) (2 ^ 64 - 1) }
        ensures left { result.left ≡ later.now.left }
    {
        Counts {
            given: self.given.saturating_add(later.given),
            missed: self.missed.saturating_add(later.missed),
            left: later.left,
        }
    }
}

/// Whether the cell's id was fetched and placed.
fn is_done(cell: Cell) -> bool
    ensures { result ≡ is_done cell }
{
    matches!(cell, Cell::Done)
}

/// Whether its relay was asked for it and didn't give it.
fn is_missed(cell: Cell) -> bool
    ensures { result ≡ is_missed cell }
{
    matches!(cell, Cell::Missed)
}

/// Whether it is neither.
fn is_left(cell: Cell) -> bool
    ensures { result ≡ is_left cell }
{
    !matches!(cell, Cell::Done | Cell::Missed)
}

/// One more, if so.
fn one_more(count: u64, is_so: bool) -> u64
    requires { count < 2 ^ 64 - 1 }
    ensures { result ≡ count + (if is_so then 1 else 0) }
{
    if is_so { count + 1 } else { count }
}

/// How many cells ended how.
pub fn counts_of(cells: &[Cell]) -> Counts
    ensures { AreCounted cells.now result }
{
    let (mut given, mut missed, mut left) = (0, 0, 0);
    for at in 0..cells.len() {
        let cell = cells[at];
        given = one_more(given, is_done(cell));
        missed = one_more(missed, is_missed(cell));
        left = one_more(left, is_left(cell));
    }
    Counts {
        given,
        missed,
        left,
    }
}

/// What a round came to: what became of each id of its plan, which relays stopped before they came to all of theirs, and whether
/// the store is full.
#[derive(Drop)]
pub struct Round {
    pub cells: Vec<Cell>,
    pub stopped: RelaySet,
    pub is_full: bool,
}

/// A source over a connection.
pub type Fetcher<'a, R, P> = ToldSource<'a, WsSource<Paced<'a, R>, RandomKeys<&'a R>>, R, P>;

/// The relays whose sessions finished. What these found is let go.
pub fn finished_of(alloc: Global, ends: Vec<End>) -> Result<Vec<u16>, AllocError> {
    let mut finished = Vec::new(alloc);
    for relay in 0..ends.len() {
        if relay < 256 && matches!(&ends[relay], End::Finished(_)) {
            finished.push(relay as u16)?;
        }
    }
    Ok(finished)
}

/// The relays that a plan gives ids to.
pub fn planned(plan: &Plan) -> RelaySet
    ensures plan { IsPlan plan.now }
{
    let mut planned = RelaySet::empty();
    for at in 0..plan.len() {
        let (_id, relay) = plan.cell(at);
        if relay < 256 {
            planned = planned.with(relay);
        }
    }
    planned
}

/// The relays but those that stopped and are given no id.
pub fn asked_of(
    alloc: Global,
    relays: &[u16],
    planned: RelaySet,
    stopped: RelaySet,
) -> Result<Vec<u16>, AllocError> {
    let mut asked = Vec::new(alloc);
    for relay in relays {
        if planned.has(*relay) || !stopped.has(*relay) {
            asked.push(*relay)?;
        }
    }
    Ok(asked)
}

/// The relays of these that no source stands for.
fn unreached(planned: RelaySet, relays: &[u16]) -> RelaySet {
    let mut unreached = planned;
    for relay in relays {
        if *relay < 256 {
            unreached = unreached.minus(RelaySet::one(*relay));
        }
    }
    unreached
}

/// The relays of which a source failed, or had no memory for what it was sent.
fn failed<J: Naming>(relays: &[u16], stops: &[Stop<J>]) -> RelaySet {
    let mut failed = RelaySet::empty();
    for at in 0..relays.len() {
        if at < stops.len() && relays[at] < 256 {
            if matches!(&stops[at], Stop::Source(_)) {
                failed = failed.with(relays[at]);
            }
        }
    }
    failed
}

/// Whether a worker found the store full.
fn met_full<J: Naming>(stops: &[Stop<J>]) -> bool {
    for stop in stops {
        if matches!(stop, Stop::Full(_)) {
            return true;
        }
    }
    false
}

/// Places for sources at the relays, for each as many as there are workers.
fn places_of<S: Drop, K: Drop>(
    alloc: Global,
    workers: u64,
    relays: &[u16],
) -> Result<Vec<SourcePlace<S, K>>, AllocError> {
    let mut places = Vec::new(alloc);
    for relay in relays {
        for _worker in 0..workers {
            places.push(SourcePlace::new(alloc, *relay)?)?;
        }
    }
    Ok(places)
}

/// The source that was found at this relay, whose answers are counted, and the relay. Why there is none is told.
fn told_source<'a, S: Drop, N: Display + Drop, R: Wait, P: Write>(
    rt: &'a R,
    alloc: Global,
    settings: &Settings,
    relay: u16,
    found: Option<S>,
    pace: SharedPace,
    why: N,
    progress: &'a Progress<P>,
) -> Result<Option<(ToldSource<'a, S, R, P>, u16)>, AllocError>
    ensures { IfOk result (λ o. IfSome o (λ told. found ≡ Some told.0.source)) }
{
    let name = name_of(alloc, settings, usize::from(relay))?;
    if let Some(source) = found {
        let told = ToldSource {
            source,
            relay: usize::from(relay),
            name,
            pace,
            rt,
            progress,
        };
        return Ok(Some((told, relay)));
    }
    progress.fail(
        rt,
        RelayLine {
            relay: usize::from(relay),
            name: name.as_str(),
            why: &why,
        },
    );
    Ok(None)
}

/// The source of a place, and its relay. Why there is none is told.
fn source_in<'a, R: Host, P: Write>(
    rt: &'a R,
    alloc: Global,
    settings: &Settings,
    place: SourcePlace<Paced<'a, R>, RandomKeys<&'a R>>,
    progress: &'a Progress<P>,
) -> Result<Option<(Fetcher<'a, R, P>, u16)>, Refusal>
    ensures { IfOk result (λ o. IfSome o (λ found. found.0.source.faults < 2 ^ 64 - 1)) }
{
    let (relay, found, pace, notes) = place.into_parts()?;
    let told = told_source(rt, alloc, settings, relay, found, pace, notes, progress)?;
    Ok(told)
}

/// Adds the source and its relay, if there is one.
fn add_source<S: Drop>(
    sources: &mut Vec<S>,
    relays: &mut Vec<u16>,
    found: Option<(S, u16)>,
) -> Result<(), AllocError>
    ensures some { IfSome found (λ f. IfOk result (λ _. sources.new.items ≡ sources.old.items ++ (f.0 ∷ []))) }
    ensures none { found ≡ None → sources.new.items ≡ sources.old.items }
{
    if let Some((source, relay)) = found {
        sources.push(source)?;
        relays.push(relay)?;
    }
    Ok(())
}

/// Sources at the relays, which are connected to side by side, and the relay of each. Why one can't be reached is told.
pub fn sources_of<'a, R: Host, P: Write>(
    rt: &'a R,
    alloc: Global,
    settings: &Settings,
    finished: &[u16],
    progress: &'a Progress<P>,
) -> Result<(Vec<Fetcher<'a, R, P>>, Vec<u16>), Refusal>
    ensures { IfOk result (λ r. All (λ s. s.source.faults < 2 ^ 64 - 1) r.0.items) }
{
    let mut places = places_of(alloc, settings.workers, finished)?;
    connect_all(rt, alloc, settings, places.as_mut_slice());
    let mut sources = Vec::new(alloc);
    let mut relays = Vec::new(alloc);
    for place in places {
        let found = source_in(rt, alloc, settings, place, progress)?;
        add_source(&mut sources, &mut relays, found)?;
    }
    Ok((sources, relays))
}

/// So many cells that nobody holds.
fn free_cells(alloc: Global, count: usize) -> Result<Vec<Cell>, AllocError>
    ensures count { IfOk result (λ v. length v.items ≡ count) }
    ensures free { IfOk result (λ v. All (λ c. c ≡ Cell.Free) v.items) }
{
    Vec::from_elem(alloc, Cell::Free, count)
}

/// A round in which nobody was asked.
fn unasked(alloc: Global, plan: &Plan, stopped: RelaySet) -> Result<Round, Refusal>
    ensures cells { IfOk result (λ round. length round.cells.items ≡ length plan.now.gives) }
    ensures free { IfOk result (λ round. All (λ c. c ≡ Cell.Free) round.cells.items) }
{
    Ok(Round {
        cells: free_cells(alloc, plan.len())?,
        stopped,
        is_full: false,
    })
}

/// Fetches what a plan gives from these sources, each at the relay beside it, and tells what became of each of its ids.
pub fn fetched<
    R: Threads + Wait + Sync,
    J: Naming + Send + Sync,
    D: Wait + Drop + Send + Sync,
    S: Source + Send,
>(
    rt: &R,
    alloc: Global,
    plan: &Plan,
    sources: &mut [S],
    relays: &[u16],
    desk: &Mutex<Desk<J, D>>,
) -> Result<Round, Refusal>
    requires { All (λ s. S.faults s < 2 ^ 64 - 1) sources.old }
    ensures cells { IfOk result (λ round. length round.cells.items ≡ length plan.now.gives) }
    ensures over { IfOk result (λ round. IsOverIfFetched S.log plan.now.gives relays.now sources.new round.cells.items) }
{
    let unreached = unreached(planned(plan), relays);
    if plan.len() == 0 {
        return unasked(alloc, plan, unreached);
    }
    let (board, lanes) = match Board::new(alloc, plan, relays) {
        Ok(made) => made,
        Err(BoardFault::Lanes) => return unasked(alloc, plan, unreached),
        Err(BoardFault::Memory) => return Err(Refusal::Memory),
    };
    cells_over_streams::<J, S>();
    match fetch_all(rt, alloc, board, lanes, sources, desk) {
        Ok(report) => Ok(Round {
            cells: report.cells,
            stopped: unreached.union(failed(relays, report.stops.as_slice())),
            is_full: met_full(report.stops.as_slice()),
        }),
        Err(FetchFault::Lanes) => unasked(alloc, plan, unreached),
        Err(FetchFault::Memory) => Err(Refusal::Memory),
    }
}
