//! Rounds.

ghost use Rattle.std.specs.Prelude.{◌≡◌, ◌↔◌, ◌≤◌, ◌<◌, ◌++◌, ◌∷◌, [], ℕ, length, IfOk, IsOk, OnErr, slice_index_or, List, IsTrue, true, false};
ghost use Rattle.std.specs.List.{zip};
ghost use Rattle.sharing.specs.Offers.{is_id};
ghost use Rattle.fetch_plan.specs.Plan.{Planned};
ghost use Rattle.round_core.specs.History.{History, holds, has_finished, has_missed, is_placed, cell_after, gives_of, no_give};
ghost use Rattle.round_core.specs.Legal.{Legal, legal_after};
ghost use Rattle.round_core.specs.Left.{Leaves, is_on_cell, ReportsTo, SealsTo, AgainTo, InsertsTo, answer_in, cells_then};

use crate::rules::{add_report, answer_at, lowest_held, more_cells, plan_without, write_cell};
use crate::{Answer, Refusal, RoundEvent, Touch};
use fetch_plan::{Cell, Plan, left_out, plan};
use item_key::Id;
use offer_table::{Bases, OfferTable};
use std::alloc::{AllocError, Global};
use std::collections::BTreeSet;
use std::marker::Model;
use std::mem;

/// A round: its lanes, the table of the offers that the last plan shares out, that plan once it is made, the cells of
/// all plans, and the placed ids.
#[derive(Drop)]
pub struct Round {
    lanes: Vec<u16>,
    table: OfferTable,
    plan: Option<Plan>,
    cells: Vec<Cell>,
    placed: BTreeSet<Id>,
    alloc: Global,
}

impl Model for Round {
    ghost use Rattle.std.specs.Prelude.{◌≤◌, length};
    ghost use Rattle.round_core.specs.Left.{State, gives_in};

    ghost Value = { State };

    ghost view = { λ r. record { lanes = r.lanes.items; table = r.table; plan = r.plan; cells = r.cells.items; placed = r.placed.keys } };

    ghost invariant = { λ r. length (gives_in r.plan) ≤ length r.cells.items };
}

impl Round {
    /// The round before any event, with a lane for each relay named, at most 1,024, numbered from 0 in this order.
    pub fn new(alloc: Global, lanes: &[u16]) -> Result<Round, AllocError>
        requires { length lanes.now ≤ 1024 }
        ensures { IfOk result (Leaves lanes.now []) }
    {
        Ok(Round {
            lanes: lanes.to_vec(alloc)?,
            table: OfferTable::empty(alloc),
            plan: None,
            cells: Vec::new(alloc),
            placed: BTreeSet::new(alloc),
            alloc,
        })
    }

    /// The answer to one event. A refused event changes nothing, nor does one without memory. An event on a cell
    /// takes no memory.
    pub fn step(&mut self, event: &RoundEvent) -> Result<Answer, AllocError>
        ensures legal { IfOk result (λ answer. (h : History) → Leaves self.old.lanes h self.old → Legal self.old.lanes (h ++ (event.now, answer) ∷ [])) }
        ensures leaves { IfOk result (λ answer. (h : History) → Leaves self.old.lanes h self.old → Leaves self.old.lanes (h ++ (event.now, answer) ∷ []) self.new) }
        ensures err { OnErr result (self.new ≡ self.old) }
        ensures answers { IsTrue (is_on_cell event.now) → IsOk result }
    {
        match event {
            RoundEvent::Report(relay, need) => self.report(*relay, need),
            RoundEvent::Seal(bases) => self.seal(bases),
            RoundEvent::Again(bases) => self.again(bases),
            RoundEvent::Claim(lane, cell) => Ok(self.touch(Touch::Claim, *lane, *cell)),
            RoundEvent::Finish(lane, cell) => Ok(self.touch(Touch::Finish, *lane, *cell)),
            RoundEvent::Miss(lane, cell) => Ok(self.touch(Touch::Miss, *lane, *cell)),
            RoundEvent::Release(lane, cell) => Ok(self.touch(Touch::Release, *lane, *cell)),
            RoundEvent::Insert(id) => self.insert(*id),
        }
    }

    /// The answers to these events, one each, from a new round on.
    pub fn run(
        alloc: Global,
        lanes: &[u16],
        events: &[RoundEvent],
    ) -> Result<Vec<Answer>, AllocError>
        requires { length lanes.now ≤ 1024 }
        ensures one_each { IfOk result (λ answers. length answers.items ≡ length events.now) }
        ensures legal { IfOk result (λ answers. Legal lanes.now (zip events.now answers.items)) }
    {
        let mut round = Round::new(alloc, lanes)?;
        round.answers(events)
    }

    // The answers to these events, one each, of a round before any event.
    fn answers(&mut self, events: &[RoundEvent]) -> Result<Vec<Answer>, AllocError>
        ensures one_each { IfOk result (λ answers. length answers.items ≡ length events.now) }
        ensures legal { IfOk result (λ answers. (lanes : List ℕ) → Leaves lanes [] self.old → Legal lanes (zip events.now answers.items)) }
    {
        let mut answers = Vec::new(self.alloc);
        for event in events {
            answers.push(self.step(event)?)?;
        }
        Ok(answers)
    }

    fn report(&mut self, relay: u16, need: &BTreeSet<Id>) -> Result<Answer, AllocError>
        ensures { ReportsTo self.old relay need.now.keys result self.new }
    {
        if self.plan.is_some() {
            return Ok(Answer::Refused(Refusal::Sealed));
        }
        let before = mem::replace(&mut self.table, OfferTable::empty(self.alloc));
        let (after, answer) = add_report(self.alloc, before, relay, need);
        self.table = after;
        answer
    }

    fn seal(&mut self, bases: &Bases) -> Result<Answer, AllocError>
        ensures { SealsTo self.old bases.now result self.new }
    {
        if self.plan.is_some() {
            return Ok(Answer::Refused(Refusal::Sealed));
        }
        let made = plan(self.alloc, &self.table, bases)?;
        let least_max = made.least_max();
        let cells = more_cells(self.alloc, &self.cells, made.len())?;
        self.cells = cells;
        self.plan = Some(made);
        Ok(Answer::Sealed(least_max))
    }

    fn again(&mut self, bases: &Bases) -> Result<Answer, AllocError>
        ensures { AgainTo self.old bases.now result self.new }
    {
        let last = match &self.plan {
            None => return Ok(Answer::Refused(Refusal::NotSealed)),
            Some(last) => last,
        };
        if let Some(cell) = lowest_held(&self.cells) {
            return Ok(Answer::Refused(Refusal::Busy(cell)));
        }
        // The table itself changes last, where nothing can be refused any more.
        let first = self.cells.len() - last.len();
        let gone = left_out(self.alloc, &self.table, last, &self.cells[first..])?;
        let made = plan_without(self.alloc, &self.table, &gone, bases)?;
        let least_max = made.least_max();
        let cells = more_cells(self.alloc, &self.cells, made.len())?;
        self.table.leave_out(&gone)?;
        self.cells = cells;
        self.plan = Some(made);
        Ok(Answer::Sealed(least_max))
    }

    fn insert(&mut self, id: Id) -> Result<Answer, AllocError>
        ensures { InsertsTo self.old id result self.new }
    {
        let fresh = self.placed.insert(id)?;
        Ok(Answer::Placed(fresh))
    }

    fn touch(&mut self, touch: Touch, lane: u16, cell: usize) -> Answer
        ensures answer { result ≡ answer_in self.old.plan self.old.lanes self.old.cells self.old.placed touch lane cell }
        ensures after { self.new ≡ record self.old { cells = cells_then self.old.cells touch lane cell result } }
    {
        let answer = answer_at(
            &self.plan,
            &self.lanes,
            &self.cells,
            &self.placed,
            touch,
            lane,
            cell,
        );
        write_cell(&mut self.cells, touch, lane, cell, answer);
        answer
    }
}

/// Each beginning of a legal history is legal.
pub fn legal_begins()
    ensures { (lanes : List ℕ) (h more : History) → Legal lanes (h ++ more) → Legal lanes h }
{}

/// In a legal history, and so at each event of it, a cell is held by one lane at most.
pub fn one_holder()
    ensures one { (lanes : List ℕ) (h : History) (w v i : ℕ) → Legal lanes h → IsTrue (holds h w i) → IsTrue (holds h v i) → w ≡ v }
    ensures always { (lanes : List ℕ) (h more : History) (w v i : ℕ) → Legal lanes (h ++ more) → IsTrue (holds h w i) → IsTrue (holds h v i) → w ≡ v }
{}

/// What a cell is after a legal history: held by a lane just where the lane's last answer on it is Won, done just
/// after an answer Finished, missed just after an answer MissedIt, else free.
pub fn cell_is()
    ensures held { (lanes : List ℕ) (h : History) (w i : ℕ) → Legal lanes h → ((cell_after h i ≡ Cell.Held w) ↔ IsTrue (holds h w i)) }
    ensures done { (lanes : List ℕ) (h : History) (i : ℕ) → Legal lanes h → ((cell_after h i ≡ Cell.Done) ↔ IsTrue (has_finished h i)) }
    ensures missed { (lanes : List ℕ) (h : History) (i : ℕ) → Legal lanes h → ((cell_after h i ≡ Cell.Missed) ↔ IsTrue (has_missed h i)) }
    ensures free { (lanes : List ℕ) (h : History) (i : ℕ) → Legal lanes h → ((cell_after h i ≡ Cell.Free) ↔ (((w : ℕ) → holds h w i ≡ false) × (has_finished h i ≡ false) × (has_missed h i ≡ false))) }
{}

/// In a history that is legal for these plans, where lane w finished cell i: no cell of its id was finished before,
/// and the id was placed before.
pub fn finished_once()
    ensures once { (lanes : List ℕ) (plans : List Planned) (before after : History) (w i k : ℕ) → legal_after lanes plans [] (before ++ (RoundEvent.Finish w i, Answer.Finished) ∷ after) → IsTrue (has_finished before k) → is_id (slice_index_or (gives_of plans) k no_give).0 (slice_index_or (gives_of plans) i no_give).0 ≡ false }
    ensures placed { (lanes : List ℕ) (plans : List Planned) (before after : History) (w i : ℕ) → legal_after lanes plans [] (before ++ (RoundEvent.Finish w i, Answer.Finished) ∷ after) → IsTrue (is_placed before (slice_index_or (gives_of plans) i no_give).0) }
{}
