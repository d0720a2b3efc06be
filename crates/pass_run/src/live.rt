//! What relays that are level send between passes.

ghost use Rattle.std.specs.Thread.{IsSync};

use crate::heeding::Heeding;
use crate::span::{first_time, last_time, narrowed};
use crate::wishes::Wishes;
use event_store::{Desk, InsertFault, Naming};
use mirror_settings::{Relay, Settings};
use nostr_event::Event;
use nostr_filter::Filter;
use session_run::{Progress, RelayLine, connected, name_of};
use slices::Slice;
use std::alloc::{AllocError, Global};
use std::fmt;
use std::io::Write;
use std::net::{Net, TcpListener, TcpStream};
use std::random::RandomSource;
use std::sync::{Arc, Mutex, Wait};
use std::thread::{Threads, join_mut};
use store_run::{Duty, Refusal, run_workers};
use tungstenite::RandomKeys;
use ws_link::{Brought, Explains, LinkFault, Notes, Reason, WsSubscription};

/// How many messages that aren't wanted are too many, where none that is comes between them.
const TOO_MANY: u64 = 1_000;

/// A subscription to a relay.
type Live<'a, R> = WsSubscription<Heeding<'a, R>, RandomKeys<&'a R>>;

/// What a subscription has brought.
#[derive(Clone, Copy, Default)]
struct Counts {
    // Events that were wanted.
    events: u64,
    // Other messages, of all and since the last event that was wanted.
    dropped: u64,
    in_turn: u64,
}

impl Counts {
    // An event came that was wanted.
    fn take(&mut self) {
        self.events = self.events.saturating_add(1);
        self.in_turn = 0;
    }

    // Another message came. Tells whether there are too many of them.
    fn is_too_much(&mut self) -> bool {
        self.dropped = self.dropped.saturating_add(1);
        self.in_turn = self.in_turn.saturating_add(1);
        self.in_turn >= TOO_MANY
    }
}

/// Why a subscription ended.
#[derive(Clone, Copy)]
enum End {
    /// The link failed.
    Link,
    /// The store takes no more.
    Full,
}

/// What is told of a subscription that has ended.
#[derive(Drop)]
struct EndLine<'a> {
    counts: Counts,
    end: End,
    notes: &'a Notes,
}

impl fmt::Display for EndLine<'_> {
    fn fmt<W: fmt::Write>(&self, f: &mut fmt::Formatter<W>) -> fmt::Result {
        let (events, dropped) = (self.counts.events, self.counts.dropped);
        write!(f, "{events} live events, {dropped} messages dropped: ")?;
        match self.end {
            End::Link => write!(f, "{}", self.notes),
            End::Full => write!(f, "the store is full"),
        }
    }
}

/// The times from that second on that the filter matches, if there are any.
fn times_since(filter: &Filter, since: u64) -> Option<Slice> {
    let since = since.max(first_time(filter));
    let until = last_time(filter);
    if since <= until {
        Some(Slice { since, until })
    } else {
        None
    }
}

/// Subscribes to relays, and puts in what they send.
#[derive(Clone, Copy)]
struct Listening<'a, R, K, P> {
    rt: &'a R,
    settings: &'a Settings,
    wishes: &'a Wishes,
    desk: &'a Mutex<K>,
    progress: &'a Progress<P>,
    // Held while a long text is read.
    turn: &'a Mutex<()>,
}

impl<
    'a,
    R: Net<Listener = TcpListener, Stream = TcpStream> + RandomSource + Wait,
    K,
    P: Write,
> Listening<'a, R, K, P> {
    // A stream to a relay, if it can be reached, else it is noted why not.
    fn stream_to(
        &self,
        alloc: Global,
        relay: &Relay,
        notes: &mut Notes,
    ) -> Result<Option<Heeding<'a, R>>, Refusal> {
        let via = &relay.via;
        let address = format!(in alloc; "{via}")?;
        let timeout = self.settings.timeout();
        match connected(self.rt, address.as_str(), timeout) {
            Ok(stream) => Ok(Some(Heeding::new(self.rt, stream, self.wishes, timeout))),
            Err(reason) => {
                notes.tell(reason);
                Ok(None)
            }
        }
    }

    // A subscription to a relay for what the filter matches, if it can be reached, else it is noted why not.
    fn subscribed(
        &self,
        alloc: Global,
        relay: &Relay,
        filter: Filter,
        notes: &mut Notes,
    ) -> Result<Option<Live<'a, R>>, Refusal> {
        let Some(stream) = self.stream_to(alloc, relay, notes)? else {
            return Ok(None);
        };
        let (host, path) = (relay.host.as_str(), relay.path.as_str());
        match WsSubscription::start_at(alloc, self.rt, stream, host, path, filter, notes) {
            Ok(live) => Ok(Some(live)),
            Err(LinkFault::Memory) => Err(Refusal::Memory),
            Err(_) => Ok(None),
        }
    }

    // Tells something of a relay.
    fn tell<D: fmt::Display>(&self, relay: usize, name: &str, why: &D) {
        self.progress.say(self.rt, RelayLine { relay, name, why });
    }
}

/// Puts an event in. Where the store doesn't take it, tells why.
fn put_in<R: Wait, J: Naming, D: Wait + Drop>(
    rt: &R,
    desk: &Mutex<Desk<J, D>>,
    event: Arc<Event>,
) -> Option<InsertFault<J>> {
    match desk.lock(rt).insert(rt, event) {
        Ok(_) => None,
        Err((fault, _)) => Some(fault),
    }
}

impl<
    'a,
    J: Naming,
    D: Wait + Drop,
    R: Net<Listener = TcpListener, Stream = TcpStream> + RandomSource + Wait,
    P: Write,
> Listening<'a, R, Desk<J, D>, P> {
    // Puts in an event that is wanted. Tells whether, and why, the subscription ends by that.
    fn take(&self, live: &mut Live<'a, R>, event: Arc<Event>) -> Option<End> {
        match put_in(self.rt, self.desk, event)? {
            InsertFault::Full(_) => Some(End::Full),
            InsertFault::Memory => {
                live.end_by(Reason::Memory);
                Some(End::Link)
            }
        }
    }

    // Takes what was brought. Tells whether, and why, the subscription ends by that.
    fn heed(
        &self,
        live: &mut Live<'a, R>,
        wanted: &Filter,
        brought: Brought,
        counts: &mut Counts,
    ) -> Option<End> {
        match brought {
            Brought::Nothing => return None,
            Brought::Event(event) => {
                if wanted.matches(&event) {
                    counts.take();
                    return self.take(live, event);
                }
            }
            Brought::Other => {}
        }
        if !counts.is_too_much() {
            return None;
        }
        live.end_by(Reason::TooManyOthers);
        Some(End::Link)
    }

    // Puts in what is wanted of what a relay sends, as long as the subscription goes on.
    fn heed_all(&self, live: &mut Live<'a, R>, wanted: &Filter, counts: &mut Counts) -> End {
        for _ in 0..u64::MAX {
            match live.next(self.rt, self.turn) {
                Ok(brought) => {
                    if let Some(end) = self.heed(live, wanted, brought, counts) {
                        return end;
                    }
                }
                Err(_) => return End::Link,
            }
        }
        End::Link
    }

    // Goes on with a subscription to its end, and tells of that.
    fn go_on(&self, relay: usize, name: &str, mut live: Live<'a, R>, wanted: &Filter) {
        self.tell(relay, name, &"subscribed");
        let mut counts = Counts::default();
        let end = self.heed_all(&mut live, wanted, &mut counts);
        let line = EndLine {
            counts,
            end,
            notes: live.notes(),
        };
        self.tell(relay, name, &line);
    }

    // Subscribes to a relay for the events of these times that are wanted, and puts in what it sends, as long as it does.
    fn hear(
        &self,
        alloc: Global,
        relay: usize,
        at: &Relay,
        name: &str,
        times: Slice,
        wanted: &Filter,
    ) -> Result<(), Refusal> {
        let asked = narrowed(alloc, &self.settings.filter, times)?;
        let mut notes = Notes::none();
        match self.subscribed(alloc, at, asked, &mut notes)? {
            Some(live) => self.go_on(relay, name, live, wanted),
            None => self.tell(relay, name, &notes),
        }
        Ok(())
    }

    // The same of a relay by its number, for events from that second on.
    fn listen(&self, alloc: Global, relay: usize, since: u64) -> Result<(), Refusal> {
        let filter = &self.settings.filter;
        let Some(at) = self.settings.relays.as_slice().get(relay) else {
            return Ok(());
        };
        let Some(times) = times_since(filter, since) else {
            return Ok(());
        };
        let name = name_of(alloc, self.settings, relay)?;
        let wanted = narrowed(alloc, filter, times)?;
        self.hear(alloc, relay, at, name.as_str(), times, &wanted)
    }
}

impl<
    'a,
    J: Naming,
    D: Wait + Drop,
    R: Net<Listener = TcpListener, Stream = TcpStream> + RandomSource + Wait,
    P: Write,
> Duty<usize> for Listening<'a, R, Desk<J, D>, P> {
    fn work<W: Wait>(&self, _waits: &W, alloc: Global, relay: &mut usize) {
        for _ in 0..u64::MAX {
            let Some(since) = self.wishes.granted(self.rt, *relay) else {
                return;
            };
            // Want of memory ends this subscription alone.
            let _ = self.listen(alloc, *relay, since);
            self.wishes.take_back(self.rt, *relay);
        }
    }
}

/// The numbers of so many relays, or of none where there is no memory for them.
fn numbers(alloc: Global, count: usize) -> Vec<usize> {
    match numbered(alloc, count) {
        Ok(numbers) => numbers,
        Err(_) => Vec::new(alloc),
    }
}

fn numbered(alloc: Global, count: usize) -> Result<Vec<usize>, AllocError> {
    let mut numbers = Vec::new(alloc);
    for number in 0..count {
        numbers.push(number)?;
    }
    Ok(numbers)
}

/// Does it for each relay, in threads of their own, beside the work. Where no thread can be made, the work is done first.
fn run_beside<R: Threads + Wait + Sync, H: Duty<usize> + Sync, G: FnMut() -> B, B>(
    rt: &R,
    alloc: Global,
    duty: &H,
    relays: &mut [usize],
    work: &mut G,
) -> B
    requires { G.pre work.old }
    ensures { G.step work.old result work.new }
{
    let (_, done) = join_mut(
        rt,
        &mut ||
            requires { IsSync R.row × IsSync H.row }
        { run_workers(rt, alloc, duty, relays) },
        work,
    );
    done
}

/// Subscribes to relays as is wished, in a thread for each, beside the work, which says when that is over. Without memory or threads
/// for that it does the work alone.
pub fn listen_beside<
    J: Naming + Send + Sync,
    D: Wait + Drop + Send + Sync,
    R: Net<Listener = TcpListener, Stream = TcpStream> + RandomSource + Threads + Wait + Sync,
    P: Write + Send,
    G: FnMut() -> B,
    B,
>(
    rt: &R,
    alloc: Global,
    settings: &Settings,
    wishes: &Wishes,
    desk: &Mutex<Desk<J, D>>,
    progress: &Progress<P>,
    work: &mut G,
) -> B
    requires { G.pre work.old }
    ensures { G.step work.old result work.new }
{
    let mut relays = numbers(alloc, wishes.len(rt));
    let turn = Mutex::new(());
    let listening = Listening {
        rt,
        settings,
        wishes,
        desk,
        progress,
        turn: &turn,
    };
    run_beside(rt, alloc, &listening, relays.as_mut_slice(), work)
}
