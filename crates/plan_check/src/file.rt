//! Plan files.

ghost use Rattle.std.specs.Prelude.{◌≡◌, map, MatchOption, IsOk, IfOk, Err, None};
ghost use Rattle.plan_check.specs.File.{File, IsFile};
ghost use Rattle.plan_check.specs.Lines.{file_fault, misplaced_fault, malformed_at, misplaced_at};

use crate::PlanFault;
use crate::order::{
    Counts, Places, are_all_relays, do_rise, first_place, malformed_base, malformed_give,
    malformed_offer, misplaced_base, misplaced_give, misplaced_offer,
};
use item_key::Id;
use std::marker::Model;

/// What relays begin with, offers, gives and a group, in order.
#[derive(Drop)]
pub struct PlanFile {
    bases: Vec<(u16, u64)>,
    offers: Vec<(Id, Vec<u16>)>,
    gives: Vec<(Id, u16)>,
    group: Vec<u16>,
}

impl Model for PlanFile {
    ghost use Rattle.std.specs.Prelude.{map};
    ghost use Rattle.plan_check.specs.File.{File, IsFile};

    ghost Value = { File };

    ghost view = { λ f. record { bases = f.bases.items; offers = map (λ o. (o.0, o.1.items)) f.offers.items; gives = f.gives.items; group = f.group.items } };

    ghost invariant = { λ f. IsFile (record { bases = f.bases.items; offers = map (λ o. (o.0, o.1.items)) f.offers.items; gives = f.gives.items; group = f.group.items }) };
}

impl PlanFile {
    /// The file of these lists, whose lines are numbered as `write_plan` would write them. A base is a relay with the
    /// load that it begins with, 1 to 1,000,000,000,000.
    pub fn of(
        bases: Vec<(u16, u64)>,
        offers: Vec<(Id, Vec<u16>)>,
        gives: Vec<(Id, u16)>,
        group: Vec<u16>,
    ) -> Result<PlanFile, PlanFault>
        ensures fault { let file : File = record { bases = bases.items; offers = map (λ o. (o.0, o.1.items)) offers.items; gives = gives.items; group = group.items } in MatchOption (file_fault (malformed_at file) (misplaced_at file)) (IsOk result) (λ f. result ≡ Err f) }
        ensures taken { let file : File = record { bases = bases.items; offers = map (λ o. (o.0, o.1.items)) offers.items; gives = gives.items; group = group.items } in IsFile file → IsOk result }
        ensures keeps { IfOk result (λ file. file ≡ record { bases = bases.items; offers = map (λ o. (o.0, o.1.items)) offers.items; gives = gives.items; group = group.items }) }
        ensures file { IfOk result IsFile }
    {
        if let Some(place) = malformed(&bases, &offers, &gives, &group) {
            return Err(PlanFault::Line(place.saturating_add(2)));
        }
        PlanFile::of_form(bases, offers, gives, group)
    }

    /// The file of these lists, where all is in order.
    pub(crate) fn in_order(
        bases: Vec<(u16, u64)>,
        offers: Vec<(Id, Vec<u16>)>,
        gives: Vec<(Id, u16)>,
        group: Vec<u16>,
    ) -> PlanFile
        requires { IsFile (record { bases = bases.items; offers = map (λ o. (o.0, o.1.items)) offers.items; gives = gives.items; group = group.items }) }
        ensures { result ≡ record { bases = bases.items; offers = map (λ o. (o.0, o.1.items)) offers.items; gives = gives.items; group = group.items } }
    {
        PlanFile {
            bases,
            offers,
            gives,
            group,
        }
    }

    /// The file of these lists, whose lines are of the form.
    fn of_form(
        bases: Vec<(u16, u64)>,
        offers: Vec<(Id, Vec<u16>)>,
        gives: Vec<(Id, u16)>,
        group: Vec<u16>,
    ) -> Result<PlanFile, PlanFault>
        requires { malformed_at (record { bases = bases.items; offers = map (λ o. (o.0, o.1.items)) offers.items; gives = gives.items; group = group.items }) ≡ None }
        ensures fault { let file : File = record { bases = bases.items; offers = map (λ o. (o.0, o.1.items)) offers.items; gives = gives.items; group = group.items } in MatchOption (misplaced_fault (misplaced_at file)) (IsOk result) (λ f. result ≡ Err f) }
        ensures keeps { IfOk result (λ file. file ≡ record { bases = bases.items; offers = map (λ o. (o.0, o.1.items)) offers.items; gives = gives.items; group = group.items }) }
        ensures file { IfOk result IsFile }
    {
        if let Some(place) = misplaced(&bases, &offers, &gives, &group) {
            return Err(PlanFault::Order(place.saturating_add(2)));
        }
        Ok(PlanFile::in_order(bases, offers, gives, group))
    }

    /// Each relay that begins with a load, ascending, with that load.
    pub fn bases(&self) -> &[(u16, u64)]
        ensures value { result.now ≡ self.now.bases }
        ensures file { IsFile self.now }
    {
        &self.bases
    }

    /// Each offered id, ascending, with the relays that offer it, ascending.
    pub fn offers(&self) -> &[(Id, Vec<u16>)]
        ensures value { map (λ o. (o.0, o.1.items)) result.now ≡ self.now.offers }
        ensures file { IsFile self.now }
    {
        &self.offers
    }

    /// Each given id, ascending, with the relay that it is given to.
    pub fn gives(&self) -> &[(Id, u16)]
        ensures value { result.now ≡ self.now.gives }
        ensures file { IsFile self.now }
    {
        &self.gives
    }

    /// The group, ascending.
    pub fn group(&self) -> &[u16]
        ensures value { result.now ≡ self.now.group }
        ensures file { IsFile self.now }
    {
        &self.group
    }
}

/// The place of the first line that is not of the form.
fn malformed(
    bases: &Vec<(u16, u64)>,
    offers: &Vec<(Id, Vec<u16>)>,
    gives: &Vec<(Id, u16)>,
    group: &Vec<u16>,
) -> Option<usize>
    ensures { result ≡ malformed_at (record { bases = bases.now.items; offers = map (λ o. (o.0, o.1.items)) offers.now.items; gives = gives.now.items; group = group.now.items }) }
{
    let counts = Counts {
        bases: bases.len(),
        offers: offers.len(),
        gives: gives.len(),
    };
    let places = Places {
        base: malformed_base(bases),
        offer: malformed_offer(offers),
        give: malformed_give(gives),
        group: are_all_relays(group),
    };
    first_place(counts, places)
}

/// The place of the first line that is out of order.
fn misplaced(
    bases: &Vec<(u16, u64)>,
    offers: &Vec<(Id, Vec<u16>)>,
    gives: &Vec<(Id, u16)>,
    group: &Vec<u16>,
) -> Option<usize>
    ensures { result ≡ misplaced_at (record { bases = bases.now.items; offers = map (λ o. (o.0, o.1.items)) offers.now.items; gives = gives.now.items; group = group.now.items }) }
{
    let counts = Counts {
        bases: bases.len(),
        offers: offers.len(),
        gives: gives.len(),
    };
    let places = Places {
        base: misplaced_base(bases),
        offer: misplaced_offer(offers),
        give: misplaced_give(gives),
        group: do_rise(group),
    };
    first_place(counts, places)
}
