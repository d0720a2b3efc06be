//! Sharing ids out among relays: the definitions, and the laws that every planner and every checker rests on.
//!
//! This is the makespan problem for jobs of one unit, each of which only some machines can take: an
//! offered id is a job, a relay that offers it a machine that can take it, and a relay's base the load that
//! the machine begins with. A group of relays that shows a number is a bottleneck set of the min-max formula
//! for that makespan.
//!
//! Contracts above cite `load`, `IsSharing`, `IsGreatest`, `alone`, `Shows` and `NoneSmaller` of `specs/Sharing`,
//! `base_of`, `base_in` and `AreBases` of `specs/Bases`, `IsReached` and `IsLeast` of `specs/Reached`, and
//! `IsOffers` of `specs/Offers`.
#![tactic(auto)]

ghost use Rattle.std.specs.Prelude.{◌≡◌, ◌≤◌, ◌<◌, ◌-◌, ◌*◌, ◌⊎◌, ◌↔◌, ℕ, List, length};
ghost use Rattle.item_key.specs.declared.Id.{Id};
ghost use Rattle.sharing.specs.Sharing.{IsSharing, taken, load, IsGreatest, Shows, NoneSmaller, alone};

/// A relay is a number below this.
pub const RELAYS: u16 = 256;

/// As many places as there are relays, for tables that a relay's number reads.
pub const SLOTS: usize = 256;

/// The most ids that a table of offers may hold.
pub const MOST_IDS: usize = 200_000;

/// The most that a relay's load may begin with.
pub const MOST_BASE: u64 = 1_000_000_000_000;

/// Where a group shows a number, no sharing of these offers has a smaller busiest load.
pub fn pigeonhole()
    ensures { (base : ℕ → ℕ) (offers : List (Id × List ℕ)) (group : List ℕ) (least : ℕ) → Shows base group offers least → NoneSmaller base offers least }
{}

/// Where all loads begin at 0 they are numbers of ids: the words about them say nothing of bases.
pub fn loads_without_bases()
    ensures load { (base : ℕ → ℕ) (offers : List (Id × List ℕ)) (f : Id → ℕ) (r : ℕ) → base r ≡ 0 → load base f offers r ≡ taken f offers r }
    ensures shows { (base : ℕ → ℕ) (offers : List (Id × List ℕ)) (group : List ℕ) (most : ℕ) → ((r : ℕ) → base r ≡ 0) → (Shows base group offers most ↔ ((most ≡ 0) ⊎ ((0 < length group) × ((most - 1) * length group < alone group offers)))) }
    ensures least { (base : ℕ → ℕ) (offers : List (Id × List ℕ)) (least : ℕ) → ((r : ℕ) → base r ≡ 0) → (NoneSmaller base offers least ↔ ((g : Id → ℕ) (most : ℕ) → IsSharing g offers → IsGreatest (taken g offers) most → least ≤ most)) }
{}
