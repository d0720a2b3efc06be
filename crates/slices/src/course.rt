//! Which slice is next.

ghost use Rattle.std.specs.Prelude.{◌≡◌, ◌≤◌, ◌<◌, ◌+◌, ◌-◌, ◌^◌, min, IfNone, IsSome, IsTrue, count_by, if◌then◌else◌};
ghost use Rattle.slices.specs.declared.times.Ending.TheVariants.{Taken, GivenUp};
ghost use Rattle.slices.specs.Course.{AreGoneOver, UnderWay, begun, ended, halved, is_wide, cut_of, work_left, capped, is_taken, is_given_up, was_taken, was_given_up, slice_behind};

use crate::times::{Ending, Slice};
use http_server::Log;
use std::marker::Model;

/// Times that are gone over slice by slice, from the newest to the oldest. Until none are left there is one slice to take. One that
/// is too large is halved, and behind each that has ended the next one is twice as wide. Contracts see it as a `Course`.
#[derive(Drop)]
pub struct Slices {
    since: u64,
    until: u64,
    next: Option<Slice>,
    // When the slice begins that was halved last. No later one crosses that.
    bound: u64,
    taken: u64,
    given_up: u64,
    // For proofs alone.
    gone: Log<Slice, Ending>,
}

impl Model for Slices {
    ghost use Rattle.slices.specs.Course.{Course, Stands};

    ghost Value = { Course };

    ghost view = { λ s. record { since = s.since; until = s.until; next = s.next; bound = s.bound; gone = s.gone.items } };

    ghost invariant = { λ s. Stands (record { since = s.since; until = s.until; next = s.next; bound = s.bound; gone = s.gone.items }) s.taken s.given_up };
}

impl Slices {
    /// All times from the first to the last, as one slice to take. Where the last is before the first, there are none.
    pub fn over(since: u64, until: u64) -> Slices
        ensures { result ≡ begun since until }
    {
        Slices {
            since,
            until,
            next: whole(since, until),
            bound: since,
            taken: 0,
            given_up: 0,
            gone: Log::new(),
        }
    }

    /// The slice to take, until all times are gone over. What is later than that slice lies in slices that were taken or given up,
    /// each time in one.
    pub fn next(&self) -> Option<Slice>
        ensures next { result ≡ self.now.next }
        ensures under_way { UnderWay self.now }
        ensures over { IfNone result (AreGoneOver self.now.since self.now.until self.now.gone) }
    {
        self.next
    }

    /// How many slices were taken.
    pub fn taken(&self) -> u64
        ensures { result ≡ capped (count_by is_taken self.now.gone) }
    {
        self.taken
    }

    /// How many slices were given up.
    pub fn given_up(&self) -> u64
        ensures { result ≡ capped (count_by is_given_up self.now.gone) }
    {
        self.given_up
    }

    /// Halves the slice to take: the part behind that time is to take, and the rest comes later. Where nothing would be left of
    /// either part, it is halved in its middle. Whether it could be: a slice of one second can't.
    pub fn halve(&mut self, at: u64) -> bool
        ensures wide { result ≡ is_wide self.old.next }
        ensures halved { self.new ≡ halved at self.old }
        ensures less { IsTrue result → work_left self.new < work_left self.old }
    {
        let Some(slice) = self.next else {
            return false;
        };
        if slice.since >= slice.until {
            return false;
        }
        self.next = Some(Slice {
            since: cut_of(at, slice) + 1,
            until: slice.until,
        });
        self.bound = slice.since;
        true
    }

    /// The slice was taken: older times are next, twice as many.
    pub fn went_well(&mut self)
        ensures ended { self.new ≡ ended Taken self.old }
        ensures less { IsSome self.old.next → work_left self.new < work_left self.old }
    {
        self.end(Ending::Taken);
    }

    /// The slice is given up: older times are next, twice as many.
    pub fn give_up(&mut self)
        ensures ended { self.new ≡ ended GivenUp self.old }
        ensures less { IsSome self.old.next → work_left self.new < work_left self.old }
    {
        self.end(Ending::GivenUp);
    }

    fn end(&mut self, how: Ending)
        ensures ended { self.new ≡ ended how self.old }
        ensures less { IsSome self.old.next → work_left self.new < work_left self.old }
    {
        let Some(slice) = self.next else {
            return;
        };
        self.next = behind(self.since, self.bound, slice);
        self.gone = self.gone.and(&slice, &how);
        self.taken = one_more(self.taken, is_taken(how));
        self.given_up = one_more(self.given_up, is_given_up(how));
    }
}

/// The times as one slice, if there are any.
fn whole(since: u64, until: u64) -> Option<Slice>
    ensures { result ≡ (begun since until).next }
{
    if since <= until {
        Some(Slice { since, until })
    } else {
        None
    }
}

/// The last time of the older part, where a slice of more than a second is halved.
fn cut_of(at: u64, slice: Slice) -> u64
    requires { slice.since < slice.until }
    ensures cut { result ≡ cut_of at slice }
    ensures older { slice.since ≤ result }
    ensures newer { result < slice.until }
{
    if slice.since <= at && at < slice.until {
        at
    } else {
        slice.since + (slice.until - slice.since) / 2
    }
}

/// The slice behind one that has ended, of the times from `first` on.
fn behind(first: u64, bound: u64, slice: Slice) -> Option<Slice>
    requires { slice.since ≤ slice.until }
    ensures { result ≡ slice_behind first bound slice }
{
    if slice.since <= first {
        return None;
    }
    let until = slice.since - 1;
    let least = if bound <= until { bound } else { first };
    let wide = (slice.until - slice.since)
        .saturating_mul(2)
        .saturating_add(1);
    Some(Slice {
        since: until.saturating_sub(wide).max(least),
        until,
    })
}

/// Whether a slice that ended so was taken.
fn is_taken(how: Ending) -> bool
    ensures { result ≡ was_taken how }
{
    matches!(how, Ending::Taken)
}

/// Whether it was given up.
fn is_given_up(how: Ending) -> bool
    ensures { result ≡ was_given_up how }
{
    matches!(how, Ending::GivenUp)
}

/// One more, if so, up to the greatest number.
fn one_more(count: u64, is_so: bool) -> u64
    ensures { result ≡ min (count + (if is_so then 1 else 0)) (2 ^ 64 - 1) }
{
    if is_so {
        count.saturating_add(1)
    } else {
        count
    }
}
