//! Who lets connections in, tells which are due a turn, and sends those away that have gone silent.

use crate::client::{Client, Line, Patience};
use crate::enter::Enter;
use crate::hall::Hall;
use mio::net::{TcpListener, TcpStream};
use mio::{Events, Interest, Poll, Token};
use std::alloc::{AllocError, Global};
use std::io;
use std::io::ErrorKind;
use std::rt::Clock;
use std::sync::{Arc, Wait};
use std::time::{Duration, Instant};

/// How many events of sockets are taken at a time.
const MOST_EVENTS: usize = 128;

/// How many connections are let in before others have their turns.
const MOST_AT_ONCE: usize = 256;

/// For how many milliseconds it pauses where no connection can be accepted, as where no descriptor is left.
const PAUSE: u64 = 100;

/// After how many milliseconds, at most, it is looked who has gone silent.
const ROUND: u64 = 250;

/// How many milliseconds a handshake may take.
const HANDSHAKE: u64 = 20_000;

/// The token of the listener. A connection's is the number of its seat.
const LISTENER: Token = Token(usize::MAX);

/// The token of what wakes who is at the door.
pub const WAKER: Token = Token(usize::MAX - 1);

/// A connection that has a seat.
#[derive(Drop)]
struct Known {
    client: Arc<Client>,
    came: Instant,
    // Since when it has brought nothing, and since when it hasn't taken what waits.
    silent: Instant,
    stuck: Instant,
    is_pinged: bool,
}

/// What is done about a connection.
#[derive(Clone, Copy)]
enum Deed {
    None,
    Ping,
    End,
}

impl Known {
    fn new(client: Arc<Client>, now: Instant) -> Known {
        Known {
            client,
            came: now,
            silent: now,
            stuck: now,
            is_pinged: false,
        }
    }

    // Looks what it has brought and taken.
    fn look(&mut self, now: Instant, is_blocked: bool) {
        if self.client.has_brought() {
            self.silent = now;
            self.is_pinged = false;
        }
        if self.client.has_taken() || !is_blocked {
            self.stuck = now;
        }
    }

    // What is done about it. Behind the last connection none has a place for long that brings nothing.
    fn due(&self, now: Instant, patience: Patience, is_last: bool) -> Deed {
        if !self.client.is_met() {
            let is_late = now.duration_since(self.came) >= Duration::from_millis(HANDSHAKE);
            return if is_late { Deed::End } else { Deed::None };
        }
        let silent = now.duration_since(self.silent);
        if now.duration_since(self.stuck) >= patience.write
            || (is_last && silent >= patience.write)
            || (self.is_pinged && silent >= patience.ping.saturating_mul(2))
        {
            return Deed::End;
        }
        if !self.is_pinged && silent >= patience.ping {
            return Deed::Ping;
        }
        Deed::None
    }
}

/// Who lets connections in.
pub struct Door {
    poll: Poll,
    events: Events,
    // None once no further connection comes in.
    listener: Option<TcpListener>,
    // Whether one may wait to be let in.
    may_wait: bool,
    come: u64,
    // Seats that nobody has, and who has the others.
    free: Vec<usize>,
    known: Vec<Option<Known>>,
    seated: usize,
    looked: Option<Instant>,
}

// By hand, as a derived one is proved anew wherever a value is dropped.
impl Drop for Door {
    fn drop(self) {
        let Self {
            poll: _,
            events: _,
            listener: _,
            may_wait: _,
            come: _,
            free: _,
            known: _,
            seated: _,
            looked: _,
        } = self;
    }
}

impl Door {
    /// A door to so many seats, behind which connections wait at a listener that doesn't block.
    pub fn new(
        alloc: Global,
        poll: Poll,
        mut listener: TcpListener,
        seats: usize,
    ) -> io::Result<Door> {
        poll.registry()
            .register(&mut listener, LISTENER, Interest::READABLE)?;
        let mut free = Vec::with_capacity(alloc, seats)?;
        let mut known = Vec::with_capacity(alloc, seats)?;
        for number in 0..seats {
            free.push(seats - 1 - number)?;
            known.push(None)?;
        }
        Ok(Door {
            poll,
            events: Events::with_capacity(alloc, MOST_EVENTS)?,
            listener: Some(listener),
            may_wait: true,
            come: 0,
            free,
            known,
            seated: 0,
            looked: None,
        })
    }

    /// Waits until something has happened, unless that is urgent elsewhere, does what is to be done about it, and tells whether
    /// connections may still come or are here.
    pub fn tend<R: Wait, C: Clock, G: Enter, K>(
        &mut self,
        rt: &R,
        clock: &C,
        alloc: Global,
        hall: &Hall<G, K>,
        is_urgent: bool,
    ) -> bool {
        let patience = if is_urgent {
            Duration::ZERO
        } else if self.may_wait && !self.free.is_empty() {
            Duration::from_millis(PAUSE)
        } else {
            round_of(hall.patience())
        };
        let _ = self.poll.poll(&mut self.events, Some(patience));
        self.call(rt, hall);
        self.see_off(rt, hall);
        if hall.is_closed() {
            self.listener = None;
        }
        let now = Instant::now(clock).ok();
        if let Some(now) = now {
            self.let_in(rt, alloc, hall, now);
            self.look_round(rt, hall, now);
        }
        self.listener.is_some() || self.seated > 0
    }

    // Connections of which something was heard are due turns.
    fn call<R: Wait, G, K>(&mut self, rt: &R, hall: &Hall<G, K>) {
        for event in self.events.iter() {
            let token = event.token();
            if token == LISTENER {
                self.may_wait = true;
            } else if token != WAKER {
                if let Some(Some(known)) = self.known.get(token.0) {
                    known
                        .client
                        .hear(event.is_read_closed() || event.is_error());
                }
                hall.call(rt, token.0);
            }
        }
    }

    // Seats that were left are free again.
    fn see_off<R: Wait, G, K>(&mut self, rt: &R, hall: &Hall<G, K>) {
        for _ in 0..self.known.len() {
            let Some(number) = hall.left(rt) else {
                return;
            };
            if let Some(place) = self.known.get_mut(number) {
                if place.take().is_some() {
                    self.seated = self.seated.saturating_sub(1);
                    let _ = self.free.push(number);
                }
            }
        }
    }

    // Lets in who waits, while there are seats.
    fn let_in<R: Wait, G: Enter, K>(
        &mut self,
        rt: &R,
        alloc: Global,
        hall: &Hall<G, K>,
        now: Instant,
    ) {
        for _ in 0..MOST_AT_ONCE {
            // Nobody comes to a relay that won't serve him.
            if self.come >= hall.conns() {
                self.listener = None;
            }
            if !self.may_wait || self.free.is_empty() {
                return;
            }
            let Some(listener) = &self.listener else {
                self.may_wait = false;
                return;
            };
            match listener.accept() {
                Ok((stream, _from)) => {
                    self.come = self.come.saturating_add(1);
                    let _ = self.seat(rt, alloc, hall, stream, now);
                }
                Err(error) => {
                    if error.kind() == ErrorKind::WouldBlock {
                        self.may_wait = false;
                        return;
                    }
                    if !is_its_own(&error) {
                        return;
                    }
                }
            }
        }
    }

    // Gives a connection a seat.
    fn seat<R: Wait, G: Enter, K>(
        &mut self,
        rt: &R,
        alloc: Global,
        hall: &Hall<G, K>,
        mut stream: TcpStream,
        now: Instant,
    ) -> io::Result<()> {
        let _ = stream.set_nodelay(true);
        let Some(number) = self.free.pop() else {
            return Ok(());
        };
        let both = Interest::READABLE | Interest::WRITABLE;
        let registered = self
            .poll
            .registry()
            .register(&mut stream, Token(number), both);
        let guest = match guest_of(alloc, stream) {
            Ok(guest) if registered.is_ok() => guest,
            _ => {
                let _ = self.free.push(number);
                return registered;
            }
        };
        let (client, guest) = guest;
        if let (Some(seat), Some(place)) = (hall.seats().get(number), self.known.get_mut(number)) {
            seat.give(rt, guest);
            *place = Some(Known::new(client, now));
            self.seated = self.seated.saturating_add(1);
        }
        Ok(())
    }

    // Looks who has gone silent, where that wasn't done just now.
    fn look_round<R: Wait, G, K>(&mut self, rt: &R, hall: &Hall<G, K>, now: Instant) {
        let patience = hall.patience();
        if let Some(looked) = self.looked {
            if now.duration_since(looked) < round_of(patience) {
                return;
            }
        }
        self.looked = Some(now);
        let is_last = self.listener.is_none();
        for (number, place) in self.known.iter_mut().enumerate() {
            let (Some(known), Some(seat)) = (place, hall.seats().get(number)) else {
                continue;
            };
            known.look(now, seat.is_blocked());
            match known.due(now, patience, is_last) {
                Deed::None => {}
                Deed::End => known.client.end(),
                Deed::Ping => {
                    known.is_pinged = true;
                    seat.want_ping();
                    hall.call(rt, number);
                }
            }
        }
    }
}

/// Whether an error of accepting is that of one connection alone, which has gone.
fn is_its_own(error: &io::Error) -> bool {
    matches!(
        error.kind(),
        ErrorKind::ConnectionAborted | ErrorKind::ConnectionReset | ErrorKind::Interrupted
    )
}

/// After how long it is looked again who has gone silent.
fn round_of(patience: Patience) -> Duration {
    let shortest = patience.ping.min(patience.write);
    (shortest / 4).clamp(Duration::from_millis(10), Duration::from_millis(ROUND))
}

/// A connection, and how it is served.
fn guest_of<G: Enter>(alloc: Global, stream: TcpStream) -> Result<(Arc<Client>, G), AllocError> {
    let client = Arc::new(alloc, Client::new(stream))?;
    let line = Line {
        client: Arc::try_clone(&client)?,
    };
    let guest = G::enter(alloc, Arc::try_clone(&client)?, line);
    Ok((client, guest))
}
