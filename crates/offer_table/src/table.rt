//! Tables of offers.

ghost use Rattle.std.specs.Prelude.{◌≡◌, ◌≤◌, ◌+◌, ◌<◌, ◌==◌, ◌||◌, ◌&&◌, not, ℕ, [], ◌∷◌, length, map, Some, Err, slice_get, OnOk, IfOk, OnErr, IfErr, MatchOption, IsOkUnless};
ghost use Rattle.std.specs.List.{list_any};
ghost use Rattle.std.specs.Map.Iter.{deref, ShowsInOrder};
ghost use Rattle.item_key.specs.declared.Id.{Id};
ghost use Rattle.sharing.specs.Sharing.{is_among};
ghost use Rattle.sharing.specs.Offers.{AreRelays, Ascend, IsOffers, relays_of, is_id};
ghost use Rattle.offer_table.specs.Table.{IsTable, new_in};
ghost use Rattle.sharing.specs.declared.TheConstants.{MOST_IDS};
ghost use Rattle.offer_table.specs.Groups.{groups_of, AreGroups, AreNumbers};
ghost use Rattle.offer_table.specs.Faults.{report_fault, offers_fault, merge_fault};
ghost use Rattle.offer_table.specs.declared.faults.OfferFault.TheVariants.{Memory};

use crate::combined::{Keep, combined, room_for};
use crate::groups::Groups;
use crate::guess::{Guess, Known, Pairs};
use crate::{Ids, OfferFault, RelaySet};
use item_key::Id;
use sharing::{MOST_IDS, RELAYS};
use std::alloc::{AllocError, Global};
use std::collections::BTreeSet;
use std::marker::Model;

/// Which relays reported what they offer, and for each offered id the relays that offer it.
pub struct OfferTable {
    reported: RelaySet,
    offers: Vec<(Id, RelaySet)>,
    groups: Groups,
    /// The number of each offer's group.
    numbers: Vec<u32>,
    alloc: Global,
}

// By hand, as a derived one is proved anew wherever a value is dropped.
impl Drop for OfferTable {
    fn drop(self) {
        let Self {
            reported: _,
            offers: _,
            groups: _,
            numbers: _,
            alloc: _,
        } = self;
    }
}

impl Model for OfferTable {
    ghost use Rattle.offer_table.specs.Table.{Table, IsTable};
    ghost use Rattle.offer_table.specs.Groups.{AreKept};

    ghost Value = { Table };

    ghost view = { λ t. record { reported = t.reported; offers = t.offers.items } };

    ghost invariant = { λ t. IsTable (record { reported = t.reported; offers = t.offers.items }) × AreKept t.offers.items t.groups t.numbers.items };
}

/// The relays that offer some id.
fn all_of(offers: &[(Id, RelaySet)]) -> RelaySet
    ensures { (r : ℕ) → is_among result r ≡ list_any (λ o. is_among o.1 r) offers.now }
{
    let mut all = RelaySet::empty();
    for offer in offers {
        all = all.union(offer.1);
    }
    all
}

/// The relays beside this id.
fn looked_up(offers: &[(Id, RelaySet)], id: &Id) -> RelaySet
    requires { Ascend (map (λ o. o.0) offers.now) }
    ensures { result ≡ relays_of offers.now id.now }
{
    match offers.binary_search_by_key(id, |offer| offer.0) {
        Ok(at) => offers[at].1,
        Err(_) => RelaySet::empty(),
    }
}

impl OfferTable {
    /// The table of these relays that reported, and these offers, where the groups of the offers are guessed.
    fn of_guess(
        alloc: Global,
        reported: RelaySet,
        offers: Vec<(Id, RelaySet)>,
        guess: Guess,
    ) -> Result<OfferTable, AllocError>
        requires { IsTable (record { reported = reported; offers = offers.items }) }
        ensures { IfOk result (λ t. t ≡ record { reported = reported; offers = offers.items }) }
    {
        let (groups, numbers) = Groups::guessed(alloc, &offers, guess)?;
        Ok(OfferTable {
            reported,
            offers,
            groups,
            numbers,
            alloc,
        })
    }

    /// What this table knows of the groups of its offers.
    fn known(&self) -> Known<'_> {
        Known::of(&self.numbers, self.groups.len())
    }

    /// The table to which no relay has reported.
    pub fn empty(alloc: Global) -> OfferTable
        ensures none { result ≡ record { reported = []; offers = [] } }
        ensures table { IsTable result }
    {
        OfferTable {
            reported: RelaySet::empty(),
            offers: Vec::new(alloc),
            groups: Groups::none(alloc),
            numbers: Vec::new(alloc),
            alloc,
        }
    }

    /// The table of these offers: ids in order, each with the set of relays that offer it. The relays that offer
    /// an id are those that reported. A few passes, and a sort of the sets that differ.
    ///
    /// # Errors
    ///
    /// `TableFull` for more than 200,000 ids, else `Memory`.
    pub fn of_sets(alloc: Global, offers: Vec<(Id, RelaySet)>) -> Result<OfferTable, OfferFault>
        requires { IsOffers offers.items }
        ensures fault { MatchOption (offers_fault (length offers.items)) (IsOkUnless result Memory) (λ f. result ≡ Err f) }
        ensures offers { IfOk result (λ t. t.offers ≡ offers.items) }
        ensures reported { IfOk result (λ t. (r : ℕ) → is_among t.reported r ≡ list_any (λ o. is_among o.1 r) offers.items) }
        ensures table { IfOk result IsTable }
    {
        if offers.len() > MOST_IDS {
            return Err(OfferFault::TableFull);
        }
        let reported = all_of(&offers);
        let guess = Guess::of_sets(alloc, &offers)?;
        Ok(OfferTable::of_guess(alloc, reported, offers, guess)?)
    }

    /// The table of one relay's report: it offers each of these ids.
    ///
    /// # Errors
    ///
    /// `Relay` for a number that is no relay, else `TableFull` for more than 200,000 ids, else `Memory`.
    pub fn of_report(
        alloc: Global,
        relay: u16,
        need: &BTreeSet<Id>,
    ) -> Result<OfferTable, OfferFault>
        ensures fault { MatchOption (report_fault relay (length need.now.keys)) (IsOkUnless result Memory) (λ f. result ≡ Err f) }
        ensures reported { IfOk result (λ t. t.reported ≡ relay ∷ []) }
        ensures offers { IfOk result (λ t. t.offers ≡ map (λ i. (i, relay ∷ [])) need.now.keys) }
        ensures table { IfOk result IsTable }
    {
        if relay >= RELAYS {
            return Err(OfferFault::Relay);
        }
        if need.len() > MOST_IDS {
            return Err(OfferFault::TableFull);
        }
        let relays = RelaySet::one(relay);
        let mut offers = Vec::with_capacity(alloc, need.len())?;
        for id in need {
            offers.push((*id, relays))?;
        }
        let guess = Guess::one(alloc, offers.len())?;
        Ok(OfferTable::of_guess(alloc, relays, offers, guess)?)
    }

    /// The offers of both tables: a few passes over both, and a sort of the sets that are new. After a fault both come
    /// back unchanged.
    ///
    /// # Errors
    ///
    /// `TableFull` where both offer more than 200,000 ids together, else `Double` where a relay reported to both, else
    /// `Memory`.
    pub fn merge(
        self,
        other: OfferTable,
    ) -> Result<OfferTable, (OfferFault, OfferTable, OfferTable)>
        ensures fault { MatchOption (merge_fault self other) (IfErr result (λ e. e.0 ≡ Memory)) (λ f. result ≡ Err (f, self, other)) }
        ensures reported { IfOk result (λ t. (r : ℕ) → is_among t.reported r ≡ (is_among self.reported r || is_among other.reported r)) }
        ensures relays { IfOk result (λ t. AreRelays t.reported) }
        ensures offers { IfOk result (λ t. (i : Id) (r : ℕ) → is_among (relays_of t.offers i) r ≡ (is_among (relays_of self.offers i) r || is_among (relays_of other.offers i) r)) }
        ensures table { IfOk result IsTable }
        ensures back { IfErr result (λ e. (e.1 ≡ self) × (e.2 ≡ other)) }
    {
        let room = room_for(&self.offers, &other.offers);
        if room > MOST_IDS {
            return Err((OfferFault::TableFull, self, other));
        }
        if self.reported.meets(other.reported) {
            return Err((OfferFault::Double, self, other));
        }
        match self.joined(&other, room) {
            Ok(both) => Ok(both),
            Err(_) => Err((OfferFault::Memory, self, other)),
        }
    }

    /// Leaves these offers out: beside an id that stands here, those of its relays that stand beside it. A few passes
    /// over both, and a sort of the sets that are new. Where memory runs out nothing has changed.
    pub fn leave_out(&mut self, gone: &[(Id, RelaySet)]) -> Result<(), AllocError>
        requires { Ascend (map (λ o. o.0) gone.now) }
        ensures offers { OnOk result ((i : Id) (r : ℕ) → is_among (relays_of self.new.offers i) r ≡ (is_among (relays_of self.old.offers i) r && not (is_among (relays_of gone.now i) r))) }
        ensures reported { self.new.reported ≡ self.old.reported }
        ensures table { IsTable self.new }
        ensures err { OnErr result (self.new ≡ self.old) }
    {
        let most = self.offers.len();
        let each: Vec<u32> = Vec::new(self.alloc);
        let apart = Known::of(&each, gone.len());
        let mut pairs = Pairs::new(self.alloc, self.known(), apart, most)?;
        let left = combined(
            self.alloc,
            Keep::FirstAlone,
            &self.offers,
            gone,
            most,
            &mut pairs,
        )?;
        let guess = pairs.guess(self.alloc, &left)?;
        *self = OfferTable::of_guess(self.alloc, self.reported, left, guess)?;
        Ok(())
    }

    /// Takes one offer away, and the id with its last offer. False where there was none. As long as
    /// [`OfferTable::leave_out`], which takes many away at once.
    pub fn strike(&mut self, id: &Id, relay: u16) -> Result<bool, AllocError>
        ensures found { IfOk result (λ b. b ≡ is_among (relays_of self.old.offers id.now) relay) }
        ensures offers { OnOk result ((i : Id) (r : ℕ) → is_among (relays_of self.new.offers i) r ≡ (is_among (relays_of self.old.offers i) r && not (is_id id.now i && (r == relay)))) }
        ensures reported { self.new.reported ≡ self.old.reported }
        ensures table { IsTable self.new }
        ensures err { OnErr result (self.new ≡ self.old) }
    {
        if !self.offers(id).has(relay) {
            return Ok(false);
        }
        self.leave_out(&[(*id, RelaySet::one(relay))])?;
        Ok(true)
    }

    /// The relays that offer this id.
    pub fn offers(&self, id: &Id) -> RelaySet
        ensures value { result ≡ relays_of self.now.offers id.now }
        ensures table { IsTable self.now }
    {
        looked_up(&self.offers, id)
    }

    /// The offered ids, ascending.
    pub fn ids(&self) -> Ids<'_>
        ensures rest { result ≡ map (λ p. p.0) self.now.offers }
        ensures runs { ShowsInOrder (deref {X = Id}) }
        ensures table { IsTable self.now }
    {
        runs_show(self.alloc);
        Ids::of(&self.offers)
    }

    /// The offers: each offered id, ascending, with the relays that offer it.
    pub fn list(&self) -> &[(Id, RelaySet)]
        ensures value { result.now ≡ self.now.offers }
        ensures table { IsTable self.now }
    {
        &self.offers
    }

    /// How many groups of ids there are. A group has the ids that just the same relays offer; the groups stand in the
    /// order of their sets of relays, as numbers in which relay r counts 2^r.
    pub fn groups(&self) -> usize
        ensures value { result ≡ length (groups_of self.now.offers) }
        ensures groups { AreGroups self.now.offers (groups_of self.now.offers) }
        ensures table { IsTable self.now }
    {
        self.groups.len()
    }

    /// The set of relays of a group, and its ids, ascending.
    pub fn group_at(&self, k: usize) -> (RelaySet, &[Id])
        requires { k < length (groups_of self.now.offers) }
        ensures { slice_get (groups_of self.now.offers) k ≡ Some (result.0, result.1.now) }
    {
        self.groups.at(k)
    }

    /// The number of each id's group, in the order of the ids.
    pub fn numbers(&self) -> &[u32]
        ensures { AreNumbers self.now.offers (groups_of self.now.offers) result.now }
    {
        &self.numbers
    }

    /// The relays that reported.
    pub fn reported(&self) -> RelaySet
        ensures { result ≡ self.now.reported }
    {
        self.reported
    }

    /// The offers of both tables, for whose ids there is this room.
    fn joined(&self, other: &OfferTable, room: usize) -> Result<OfferTable, AllocError>
        requires { (length self.now.offers + new_in self.now.offers other.now.offers) ≤ MOST_IDS }
        ensures reported { IfOk result (λ t. (r : ℕ) → is_among t.reported r ≡ (is_among self.now.reported r || is_among other.now.reported r)) }
        ensures relays { IfOk result (λ t. AreRelays t.reported) }
        ensures offers { IfOk result (λ t. (i : Id) (r : ℕ) → is_among (relays_of t.offers i) r ≡ (is_among (relays_of self.now.offers i) r || is_among (relays_of other.now.offers i) r)) }
        ensures table { IfOk result IsTable }
    {
        let mut pairs = Pairs::new(self.alloc, self.known(), other.known(), room)?;
        let offers = combined(
            self.alloc,
            Keep::Either,
            &self.offers,
            &other.offers,
            room,
            &mut pairs,
        )?;
        let guess = pairs.guess(self.alloc, &offers)?;
        let reported = self.reported.union(other.reported);
        OfferTable::of_guess(self.alloc, reported, offers, guess)
    }
}

/// Whatever takes the first of a list, as the iterator over a set does, shows the list in order.
fn runs_show(alloc: Global)
    ensures { ShowsInOrder (deref {X = Id}) }
{
    let none: BTreeSet<Id> = BTreeSet::new(alloc);
    none.iter();
}
