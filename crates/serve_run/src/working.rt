//! Workers, who give connections their turns.

use crate::guest::Guest;
use client_hall::{Door, Errand, Hall, Next, Seat};
use event_log::{Keeper, Kept};
use event_store::{Desk, Naming, Placed, Reader};
use event_text::EventScratch;
use relay_core::RelayLimits;
use std::alloc::Global;
use std::io::Write;
use std::rt::Clock;
use std::sync::Wait;
use std::time::Instant;
use store_run::{Clerk, Duty, Keeping};
use ws_serve::{Turned, Turns};

/// A turn of so many milliseconds took long.
const LONG: u128 = 100;

/// Serves a hall's connections.
#[derive(Clone, Copy)]
pub struct Serving<'c, 'h, C, G, K, P> {
    pub clock: &'c C,
    pub hall: &'h Hall<G, K>,
    pub keeping: &'h P,
    pub limits: RelayLimits,
}

/// Who waits until events are kept, as a worker of a hall.
#[derive(Clone, Copy)]
struct Aside<'h, 'k, G, K, H> {
    hall: &'h Hall<G, K>,
    keeper: &'k H,
}

impl<'h, 'k, G, K, J: Naming, H: Keeper<J>> Keeper<J> for Aside<'h, 'k, G, K, H> {
    type On = H::On;

    fn kept<W: Wait>(&self, rt: &W, placed: &Placed<J>) -> Option<Kept<J, H::On>> {
        self.hall.wait_aside(rt);
        self.keeper.kept(rt, placed)
    }
}

/// How a turn in a hall reads texts.
fn turns_of<'t, G, K>(
    hall: &'t Hall<G, K>,
    reads_long: bool,
    scratch: &'t mut EventScratch,
) -> Turns<'t> {
    Turns {
        lock: hall.turn(),
        reads_long,
        scratch,
    }
}

/// Gives the connection in a seat a turn, which reads long texts or doesn't.
fn give_turn<J: Naming, D: Wait + Drop, R: Wait, C: Clock, E: Write + Drop>(
    rt: &R,
    alloc: Global,
    serving: &Serving<'_, '_, C, Guest<J>, Desk<J, D>, Keeping<J, E>>,
    number: usize,
    reads_long: bool,
    reader: &mut Reader<J>,
    scratch: &mut EventScratch,
) {
    let hall = serving.hall;
    let Some(seat) = hall.seats().get(number) else {
        return;
    };
    let clerk = Clerk {
        clock: serving.clock,
        keeping: serving.keeping,
    };
    let keeper = Aside {
        hall,
        keeper: &clerk,
    };
    let mut turns = turns_of(hall, reads_long, scratch);
    seat.begin(rt);
    let guest = seat.guest.lock(rt).take();
    if let Some(mut guest) = guest {
        let begun = Instant::now(serving.clock).ok();
        let turned = guest.turn(
            rt,
            alloc,
            reader,
            hall.desk(),
            &keeper,
            &mut turns,
            serving.limits,
        );
        let is_slow = took_long(begun, Instant::now(serving.clock).ok());
        let is_long = turned == Some(Turned::Later) || guest.is_in_long();
        seat.note_pace(is_slow, is_long);
        settle(rt, hall, seat, number, guest, turned, reader.front().len());
    } else {
        hall.end_turn(rt, number, false);
    }
    let _ = hall.publish(rt, reader.front().len());
}

/// Whether that much time has gone by that others are not to wait for as much again.
fn took_long(begun: Option<Instant>, ended: Option<Instant>) -> bool {
    match (begun, ended) {
        (Some(begun), Some(ended)) => ended.duration_since(begun).as_millis() >= LONG,
        _ => false,
    }
}

/// What a turn has come to is seen to, of which its reader saw so many events.
fn settle<R: Wait, J: Naming, K>(
    rt: &R,
    hall: &Hall<Guest<J>, K>,
    seat: &Seat<Guest<J>>,
    number: usize,
    guest: Guest<J>,
    turned: Option<Turned>,
    seen: u64,
) {
    let has_subs = guest.has_subs();
    hall.note(number, has_subs, guest.has_waiting());
    match turned {
        Some(turned) => {
            if seat.takes_ping() {
                guest.ping();
            }
            seat.put_back(rt, guest);
            let is_ready = match turned {
                Turned::Ready | Turned::Later => true,
                // Others may have been told of it before this one was known to hear of what is published.
                Turned::Idle => has_subs && hall.has_more(seen),
                Turned::Full | Turned::Over => false,
            };
            hall.end_turn(rt, number, is_ready);
        }
        None => {
            guest.leave();
            hall.end_turn(rt, number, false);
            hall.leave(rt, number);
        }
    }
}

/// Tells a part of the clients what was published for them.
fn tell_part<J: Naming, R: Wait, K>(
    rt: &R,
    alloc: Global,
    hall: &Hall<Guest<J>, K>,
    part: usize,
    reader: &mut Reader<J>,
) {
    let first = hall.first_of(part);
    for (place, seat) in hall.seats_of(part).iter().enumerate() {
        let number = first.saturating_add(place);
        if seat.is_subscribed() && seat.is_at_hand(rt) {
            let guest = seat.guest.lock(rt).take();
            if let Some(mut guest) = guest {
                let told = guest.tell(alloc, reader);
                settle(rt, hall, seat, number, guest, told, reader.front().len());
            } else {
                hall.end_turn(rt, number, false);
            }
        }
    }
}

/// Does what is due.
fn serve<J: Naming, D: Wait + Drop, R: Wait, C: Clock, E: Write + Drop>(
    rt: &R,
    alloc: Global,
    serving: &Serving<'_, '_, C, Guest<J>, Desk<J, D>, Keeping<J, E>>,
    errand: Errand,
    reader: &mut Reader<J>,
    scratch: &mut EventScratch,
) {
    match errand {
        Errand::Turn(number) => give_turn(rt, alloc, serving, number, false, reader, scratch),
        Errand::Slow(number) => {
            give_turn(rt, alloc, serving, number, false, reader, scratch);
            serving.hall.end_slow(rt);
        }
        Errand::Long(number) => give_turn(rt, alloc, serving, number, true, reader, scratch),
        Errand::News(part) => tell_part(rt, alloc, serving.hall, part, reader),
    }
}

/// Sees who is ready at the door, which is waited for unless errands are left. Once no connection is left, serving is over.
fn tend<R: Wait, C: Clock, J: Naming, K>(
    rt: &R,
    clock: &C,
    alloc: Global,
    hall: &Hall<Guest<J>, K>,
    mut door: Door,
    has_errands: bool,
) {
    if door.tend(rt, clock, alloc, hall, has_errands) {
        hall.leave_door(rt, door);
    } else {
        hall.end(rt);
    }
}

impl<'c, 'h, C: Wait + Clock, J: Naming, D: Wait + Drop, E: Write + Drop> Duty<Reader<J>>
    for Serving<'c, 'h, C, Guest<J>, Desk<J, D>, Keeping<J, E>> {
    fn work<R: Wait>(&self, rt: &R, alloc: Global, reader: &mut Reader<J>) {
        let hall = self.hall;
        let reads_long = hall.begin(rt);
        let mut scratch = EventScratch::new();
        for _ in 0..u64::MAX {
            match hall.next(self.clock, reads_long) {
                Next::Errand(errand) => serve(rt, alloc, self, errand, reader, &mut scratch),
                Next::Door(door, has_errands) => {
                    tend(rt, self.clock, alloc, hall, door, has_errands);
                }
                Next::End => return,
            }
        }
    }
}
