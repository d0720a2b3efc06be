//! A worker: it claims cells of its lane's relay, asks its source for their ids, and places the events that came.

ghost use Rattle.std.specs.Prelude.{◌≡◌, ◌<◌, ◌≤◌, ◌+◌, ◌-◌, ◌^◌, ◌⊎◌, [], ◌∷◌, ℕ, false, true, length, drop, Contains, All, Some, Err, IfOk, IfErr, IfSome, OnOk, OnErr};
ghost use Rattle.std.specs.Arc.{arc_value};
ghost use Rattle.event_source.specs.Fetching.{fetching, ids_of, IsGiven, IsAsked};
ghost use Rattle.mirror_core.specs.IdPlaces.{ArePlacesOf};
ghost use Rattle.mirror_core.specs.Batches.{Batched, SameLane, EndsCell, Settles};
ghost use Rattle.mirror_core.specs.Working.{is_through, stop_of, IsUnused, Logs, Worked};
ghost use Rattle.mirror_core.specs.Asked.{AsksOnce};

use crate::batch::{Batch, fill, release_from};
use crate::places::Places;
use crate::workers::Duty;
use claim_board::{Board, Lane};
use event_source::{Source, SourceFault};
use event_store::{Desk, Filled, InsertFault, Naming, Placed};
use item_key::Id;
use nostr_event::Event;
use std::alloc::{AllocError, Global};
use std::sync::{Arc, Mutex, Wait};
use std::vec::IntoIter;

/// How a worker ended.
#[derive(Drop)]
pub enum Stop<J: Naming> {
    /// It came to all cells.
    Through,
    /// Its source gave nothing.
    Source(SourceFault),
    /// The store has as many events as it takes.
    Full(Filled<J>),
    /// No memory was found.
    Memory,
}

impl<J: Naming> From<InsertFault<J>> for Stop<J> {
    ghost use Rattle.std.specs.Prelude.{◌≡◌};
    ghost use Rattle.mirror_core.specs.Working.{stop_of};

    ghost from_gives = { λ f s. s ≡ stop_of f };

    fn from(fault: InsertFault<J>) -> Stop<J> {
        match fault {
            InsertFault::Full(filled) => Stop::Full(filled),
            InsertFault::Memory => Stop::Memory,
        }
    }
}

/// The event with this id, if it was given.
fn given_with(
    given: &[Arc<Event>],
    places: &Places,
    id: &Id,
) -> Result<Option<Arc<Event>>, AllocError>
    requires { ArePlacesOf (ids_of given.now) places.now.by_id }
    ensures { IfOk result (λ found. IfSome found (λ event. IsGiven id.now given.now (arc_value event))) }
{
    let Some(k) = places.find(given, id) else {
        return Ok(None);
    };
    Ok(Some(Arc::try_clone(&given[k])?))
}

/// Those of the given events that were asked for.
fn asked_of(
    alloc: Global,
    ids: &[Id],
    given: &[Arc<Event>],
    places: &Places,
) -> Result<Vec<Arc<Event>>, AllocError>
    requires { ArePlacesOf (ids_of given.now) places.now.by_id }
    ensures { IfOk result (λ asked. All (λ event. IsAsked ids.now given.now (arc_value event)) asked.items) }
{
    let mut asked = Vec::with_capacity(alloc, ids.len())?;
    for id in ids {
        if let Some(event) = given_with(given, places, id)? {
            asked.push(event)?;
        }
    }
    Ok(asked)
}

/// Puts the events that were asked for into the store at once, and tells what became of them, in the order of the ids. Of events
/// behind the first for which there is no room it tells nothing, and of none where there is no memory.
fn place_together<R: Wait, J: Naming, D: Wait + Drop>(
    rt: &R,
    alloc: Global,
    desk: &Mutex<Desk<J, D>>,
    ids: &[Id],
    given: &[Arc<Event>],
    places: &Places,
) -> Vec<Placed<J>>
    requires { ArePlacesOf (ids_of given.now) places.now.by_id }
{
    let Ok(asked) = asked_of(alloc, ids, given, places) else {
        return Vec::new(alloc);
    };
    let mut held = desk.lock(rt);
    // What was replaced before is taken apart once the next may insert.
    let older = held.replaced();
    let placed = held.insert_each(rt, &asked);
    drop(held);
    drop(older);
    match placed {
        Ok(placed) => placed,
        Err(_) => Vec::new(alloc),
    }
}

/// What was told next, if that is of the event with this id.
fn told_of<J: Naming>(told: &mut IntoIter<Placed<J>>, id: &Id) -> Option<Placed<J>>
    ensures { IfSome result (λ placed. placed.id ≡ id.now) }
{
    let placed = told.next()?;
    if placed.id() == *id {
        Some(placed)
    } else {
        None
    }
}

/// Ends a cell that the lane holds: as done once its event is placed, or as missed where its source gave none.
/// An event of which nothing was told is put in here.
fn end_cell<R: Wait, J: Naming, D: Wait + Drop>(
    rt: &R,
    board: &Board<J>,
    desk: &Mutex<Desk<J, D>>,
    lane: &mut Lane,
    cell: usize,
    given: &[Arc<Event>],
    places: &Places,
    told: &mut IntoIter<Placed<J>>,
) -> Result<(), InsertFault<J>>
    requires board { lane.old.board ≡ board.now.board }
    requires cell { (cell < length board.now.cells) × Contains lane.old.own.held cell }
    requires places { ArePlacesOf (ids_of given.now) places.now.by_id }
    ensures same { SameLane lane.old lane.new }
    ensures ended { OnOk result (EndsCell board.now.cells (ids_of given.now) cell lane.old.own lane.new.own) }
    ensures err { OnErr result (lane.new ≡ lane.old) }
{
    let id = board.cell(cell).0;
    let Some(k) = places.find(given, &id) else {
        board.miss(lane, cell);
        return Ok(());
    };
    if let Some(placed) = told_of(told, &id) {
        board.finish(lane, cell, &placed);
        return Ok(());
    }
    let Ok(event) = Arc::try_clone(&given[k]) else {
        return Err(InsertFault::Memory);
    };
    match desk.lock(rt).insert(rt, event) {
        Ok(placed) => {
            board.finish(lane, cell, &placed);
            Ok(())
        }
        Err((fault, _event)) => Err(fault),
    }
}

/// Ends the cells of a batch. Where the desk refuses an event, the cells from its on are released, and all of them where
/// there is no memory for the places.
fn settle<R: Wait, J: Naming, D: Wait + Drop>(
    rt: &R,
    alloc: Global,
    board: &Board<J>,
    desk: &Mutex<Desk<J, D>>,
    lane: &mut Lane,
    batch: &Batch,
    given: &[Arc<Event>],
) -> Result<(), InsertFault<J>>
    requires board { lane.old.board ≡ board.now.board }
    requires batched { Batched board.now.cells batch.now.next batch.now.cells.items batch.now.ids.items lane.old.own }
    ensures same { SameLane lane.old lane.new }
    ensures settles { Settles board.now.cells batch.now.ids.items (ids_of given.now) lane.old.own lane.new.own }
    ensures batched { OnOk result (Batched board.now.cells batch.now.next [] [] lane.new.own) }
    ensures held { lane.new.own.held ≡ [] }
{
    let Ok(places) = Places::of(alloc, given) else {
        release_from(board, lane, &batch.cells, 0);
        return Err(InsertFault::Memory);
    };
    let placed = place_together(rt, alloc, desk, batch.ids.as_slice(), given, &places);
    let mut told = placed.into_iter();
    for k in 0..batch.cells.len() {
        match end_cell(
            rt,
            board,
            desk,
            lane,
            batch.cells[k],
            given,
            &places,
            &mut told,
        ) {
            Ok(()) => {}
            Err(fault) => {
                release_from(board, lane, &batch.cells, k);
                return Err(fault);
            }
        }
    }
    Ok(())
}

/// Asks the source for the ids of a batch, and ends its cells. A worker that stops holds nothing.
fn fetch_batch<R: Wait, J: Naming, D: Wait + Drop, S: Source>(
    rt: &R,
    alloc: Global,
    board: &Board<J>,
    desk: &Mutex<Desk<J, D>>,
    lane: &mut Lane,
    source: &mut S,
    batch: &Batch,
) -> Result<(), Stop<J>>
    requires board { lane.old.board ≡ board.now.board }
    requires batched { Batched board.now.cells batch.now.next batch.now.cells.items batch.now.ids.items lane.old.own }
    requires few { length batch.now.ids.items ≤ 100 }
    requires ready { S.faults source.old < 2 ^ 64 - 1 }
    ensures same { SameLane lane.old lane.new }
    ensures log { Logs board.now.cells lane.old.own lane.new.own (S.log source.old) (S.log source.new) }
    ensures asked { AsksOnce batch.now.ids.items (S.log source.old) (S.log source.new) }
    ensures batched { OnOk result (Batched board.now.cells batch.now.next [] [] lane.new.own) }
    ensures faults { OnOk result (S.faults source.new ≡ S.faults source.old) }
    ensures held { lane.new.own.held ≡ [] }
    ensures stop { IfErr result (λ s. is_through s ≡ false) }
    ensures failed { result ≡ Err (Stop.Source SourceFault.Failed) → S.faults source.old < S.faults source.new }
    ensures told { IfErr result (λ s. S.faults source.old < S.faults source.new → s ≡ Stop.Source SourceFault.Failed) }
    ensures becomes { S.becomes source.old source.new }
{
    if batch.cells.is_empty() {
        return Ok(());
    }
    match source.fetch(&batch.ids) {
        Ok(given) => match settle(rt, alloc, board, desk, lane, batch, &given) {
            Ok(()) => Ok(()),
            Err(fault) => Err(Stop::from(fault)),
        },
        Err(fault) => {
            release_from(board, lane, &batch.cells, 0);
            Err(Stop::Source(fault))
        }
    }
}

/// Works a lane over all cells of its relay.
fn work_lane<R: Wait, J: Naming, D: Wait + Drop, S: Source>(
    rt: &R,
    alloc: Global,
    board: &Board<J>,
    desk: &Mutex<Desk<J, D>>,
    lane: &mut Lane,
    source: &mut S,
) -> Stop<J>
    requires board { lane.old.board ≡ board.now.board }
    requires unused { IsUnused lane.old.own }
    requires ready { S.faults source.old < 2 ^ 64 - 1 }
    ensures worked { Worked board.now.cells lane.old lane.new (S.log source.old) (S.log source.new) (S.faults source.old) (S.faults source.new) result }
    ensures becomes { S.becomes source.old source.new }
{
    let mut next = 0;
    while next < board.len() {
        let Ok(batch) = fill(alloc, board, lane, next) else {
            return Stop::Memory;
        };
        match fetch_batch(rt, alloc, board, desk, lane, source, &batch) {
            Ok(()) => next = batch.next,
            Err(stop) => return stop,
        }
    }
    Stop::Through
}

/// Works its lane over all cells of its relay, and places what comes through the desk.
impl<J: Naming, D: Wait + Drop, S: Source> Duty<J, S, Stop<J>> for Mutex<Desk<J, D>> {
    ghost did = { λ cells l m s t stop. Worked cells l m (S.log s) (S.log t) (S.faults s) (S.faults t) stop × S.becomes s t };

    fn work<R: Wait>(
        &self,
        rt: &R,
        alloc: Global,
        board: &Board<J>,
        lane: &mut Lane,
        source: &mut S,
    ) -> Stop<J> {
        work_lane(rt, alloc, board, self, lane, source)
    }
}
