//! Links to relays.

ghost use Rattle.std.specs.Prelude.{◌≡◌, ◌<◌, ◌^◌, ◌-◌, All, IfOk, IfSome, Ok, length, map};
ghost use Rattle.std.specs.List.{range_with_len};

use crate::host::Host;
use crate::pace::{Pace, Paced, SharedPace};
use crate::progress::Progress;
use crate::told::{Heard, ToldPeer};
use mirror_settings::{Relay, Settings};
use nostr_filter::Filter;
use offer_table::RelaySet;
use sharing::SLOTS;
use std::alloc::{AllocError, Global};
use std::io::{Read, Write};
use std::marker::Model;
use std::mem::replace;
use std::net::{Net, TcpListener, TcpStream, ToSocketAddrs};
use std::random::RandomSource;
use std::rt::Clock;
use std::sync::{Arc, Mutex, Wait};
use std::thread::Threads;
use std::time::Duration;
use store_run::{Duty, Refusal, run_workers};
use tungstenite::RandomKeys;
use ws_link::{LinkFault, Notes, Reason, WsPeer, WsSource};

/// How a relay is named: by its number in the settings, and as they write it.
pub fn name_of(alloc: Global, settings: &Settings, relay: usize) -> Result<String, AllocError> {
    match settings.relays.as_slice().get(relay) {
        Some(named) => String::from_str(alloc, named.host.as_str()),
        None => Ok(String::new(alloc)),
    }
}

/// A connection with a relay, if it can be made in time, else why not. No later read or write of it waits longer.
pub fn connected<R: Net<Listener = TcpListener, Stream = TcpStream>>(
    rt: &R,
    host: &str,
    timeout: Duration,
) -> Result<TcpStream, Reason> {
    let Ok(addresses) = host.to_socket_addrs(rt) else {
        return Err(Reason::NoHost);
    };
    let mut reason = Reason::NoHost;
    for address in addresses {
        match rt.connect_timeout(address, timeout) {
            Ok(stream) => {
                let _ = stream.set_nodelay(true);
                let _ = stream.set_read_timeout(Some(timeout));
                let _ = stream.set_write_timeout(Some(timeout));
                return Ok(stream);
            }
            Err(error) => reason = Reason::of_stream(&error),
        }
    }
    Err(reason)
}

/// A link, if it was started. Want of memory alone is a refusal.
fn if_started<L: Drop>(started: Result<L, LinkFault>) -> Result<Option<L>, Refusal>
    ensures { IfOk result (λ o. IfSome o (λ link. started ≡ Ok link)) }
{
    match started {
        Ok(link) => Ok(Some(link)),
        Err(LinkFault::Memory) => Err(Refusal::Memory),
        Err(_) => Ok(None),
    }
}

/// A peer that is this relay, or one that can't be reached.
fn linked<'a, R: Net<Listener = TcpListener, Stream = TcpStream> + RandomSource>(
    rt: &'a R,
    alloc: Global,
    relay: &Relay,
    settings: &Settings,
    filter: &Filter,
) -> Result<WsPeer<TcpStream, RandomKeys<&'a R>>, Refusal>
    ensures { IfOk result (λ peer. peer.faults ≡ 0) }
{
    let via = &relay.via;
    let address = format!(in alloc; "{via}")?;
    let stream = match connected(rt, address.as_str(), settings.timeout()) {
        Ok(stream) => stream,
        Err(reason) => return Ok(WsPeer::unreachable_by(alloc, Notes::of(reason))),
    };
    let mut notes = Notes::none();
    let started = WsPeer::start_at(
        alloc,
        rt,
        stream,
        relay.host.as_str(),
        relay.path.as_str(),
        filter,
        &mut notes,
    );
    match if_started(started)? {
        Some(peer) => Ok(peer),
        None => Ok(WsPeer::unreachable_by(alloc, notes)),
    }
}

/// A place for a relay's peer, of which no question has failed.
struct PeerPlace<S, K> {
    relay: usize,
    peer: Result<WsPeer<S, K>, Refusal>,
}

// By hand, as a derived one is proved anew wherever a value is dropped.
impl<S: Drop, K: Drop> Drop for PeerPlace<S, K> {
    fn drop(self) {
        let Self { relay: _, peer: _ } = self;
    }
}

impl<S, K> Model for PeerPlace<S, K> {
    ghost use Rattle.std.specs.Prelude.{◌≡◌, ℕ, IfOk};

    ghost Value = { ℕ };

    ghost view = { λ p. p.relay };

    ghost invariant = { λ p. IfOk p.peer (λ q. q.faults ≡ 0) };
}

impl<S, K> PeerPlace<S, K> {
    /// The relay's peer.
    fn into_peer(self) -> Result<WsPeer<S, K>, Refusal>
        ensures { IfOk result (λ peer. peer.faults ≡ 0) }
    {
        let Self { relay: _, peer } = self;
        peer
    }
}

/// Connects to the relays of the settings, but for those that are left out, to compare events.
#[derive(Clone, Copy)]
struct Comparing<'a, 's, R> {
    rt: &'a R,
    settings: &'s Settings,
    filter: &'s Filter,
    left_out: RelaySet,
}

impl<'a, 's, R: Net<Listener = TcpListener, Stream = TcpStream> + RandomSource> Duty<
    PeerPlace<TcpStream, RandomKeys<&'a R>>,
> for Comparing<'a, 's, R> {
    fn work<W: Wait>(
        &self,
        _waits: &W,
        alloc: Global,
        place: &mut PeerPlace<TcpStream, RandomKeys<&'a R>>,
    ) {
        if is_in(self.left_out, place.relay) {
            return;
        }
        if let Some(relay) = self.settings.relays.as_slice().get(place.relay) {
            let linked = linked(self.rt, alloc, relay, self.settings, self.filter);
            // What stood there, which no session began with, is let go.
            drop(replace(&mut place.peer, linked));
        }
    }
}

/// Whether the relay is one of these.
fn is_in(relays: RelaySet, relay: usize) -> bool {
    relay < SLOTS && relays.has(relay as u16)
}

/// A place for each relay, in their order.
fn peer_places<S: Drop, K: Drop>(
    alloc: Global,
    settings: &Settings,
) -> Result<Vec<PeerPlace<S, K>>, AllocError>
    ensures { IfOk result (λ places. length places.items ≡ length settings.now.relays) }
{
    let mut places = Vec::new(alloc);
    for relay in 0..settings.relays.as_slice().len() {
        let peer = Ok(WsPeer::unreachable(alloc));
        places.push(PeerPlace { relay, peer })?;
    }
    Ok(places)
}

/// The peer of this number, if it could be linked, whose session is told as it ends.
fn told_peer<'a, Q: Drop, R, P>(
    rt: &'a R,
    alloc: Global,
    settings: &Settings,
    left_out: RelaySet,
    linked: Result<Q, Refusal>,
    relay: usize,
    progress: &'a Progress<P>,
) -> Result<ToldPeer<'a, Q, R, P>, Refusal>
    ensures peer { IfOk result (λ told. linked ≡ Ok told.peer) }
    ensures number { IfOk result (λ told. told.relay ≡ relay) }
{
    let name = name_of(alloc, settings, relay)?;
    Ok(ToldPeer {
        peer: linked?,
        relay,
        name,
        is_asked: !is_in(left_out, relay),
        heard: Mutex::new(Heard::Nothing),
        rt,
        progress,
    })
}

/// The peers of the places, in their order and numbered so, whose sessions are told as they end.
fn peers_in<'a, S: Drop, K: Drop, R, P>(
    rt: &'a R,
    alloc: Global,
    settings: &Settings,
    left_out: RelaySet,
    places: Vec<PeerPlace<S, K>>,
    progress: &'a Progress<P>,
) -> Result<Vec<ToldPeer<'a, WsPeer<S, K>, R, P>>, Refusal>
    ensures faults { IfOk result (λ peers. All (λ told. told.peer.faults < 2 ^ 64 - 1) peers.items) }
    ensures numbers { IfOk result (λ peers. map (λ told. told.relay) peers.items ≡ range_with_len 0 (length places.items)) }
{
    let mut peers = Vec::new(alloc);
    for place in places {
        let relay = peers.len();
        let linked = place.into_peer();
        let told = told_peer(rt, alloc, settings, left_out, linked, relay, progress)?;
        peers.push(told)?;
    }
    Ok(peers)
}

/// A peer for each relay, in their order and numbered so, whose session is told as it ends. The relays are connected to side by
/// side, but for those that are left out.
pub fn linked_all<
    'a,
    R: Net<Listener = TcpListener, Stream = TcpStream> + RandomSource + Threads + Wait + Sync,
    P,
>(
    rt: &'a R,
    alloc: Global,
    settings: &Settings,
    filter: &Filter,
    left_out: RelaySet,
    progress: &'a Progress<P>,
) -> Result<Vec<ToldPeer<'a, WsPeer<TcpStream, RandomKeys<&'a R>>, R, P>>, Refusal>
    ensures faults { IfOk result (λ peers. All (λ told. told.peer.faults < 2 ^ 64 - 1) peers.items) }
    ensures numbers { IfOk result (λ peers. map (λ told. told.relay) peers.items ≡ range_with_len 0 (length settings.now.relays)) }
{
    let mut places = peer_places(alloc, settings)?;
    let comparing = Comparing {
        rt,
        settings,
        filter,
        left_out,
    };
    run_workers(rt, alloc, &comparing, places.as_mut_slice());
    peers_in(rt, alloc, settings, left_out, places, progress)
}

/// Connects to the relays of the settings, to fetch events.
#[derive(Clone, Copy)]
struct Connecting<'a, 's, R> {
    rt: &'a R,
    settings: &'s Settings,
}

/// A source that is this relay, over a connection with it, if it takes up the link, else it is noted why not.
fn source_over<
    'a,
    R: Net<Listener = TcpListener, Stream = TcpStream> + RandomSource + Wait + Clock,
>(
    rt: &'a R,
    alloc: Global,
    relay: &Relay,
    settings: &Settings,
    stream: TcpStream,
    pace: &SharedPace,
    notes: &mut Notes,
) -> Result<Option<WsSource<Paced<'a, R>, RandomKeys<&'a R>>>, Refusal>
    ensures { IfOk result (λ o. IfSome o (λ source. source.faults ≡ 0)) }
{
    let pace = pace.clone()?;
    let stream = Paced::new(rt, stream, pace, settings.timeout(), settings.slow_bytes);
    let (host, path) = (relay.host.as_str(), relay.path.as_str());
    if_started(WsSource::start_at(alloc, rt, stream, host, path, notes))
}

/// A source that is this relay, if it can be reached, else it is noted why not.
fn source_at<'a, R: Net<Listener = TcpListener, Stream = TcpStream> + RandomSource + Wait + Clock>(
    rt: &'a R,
    alloc: Global,
    relay: &Relay,
    settings: &Settings,
    pace: &SharedPace,
    notes: &mut Notes,
) -> Result<Option<WsSource<Paced<'a, R>, RandomKeys<&'a R>>>, Refusal>
    ensures { IfOk result (λ o. IfSome o (λ source. source.faults ≡ 0)) }
{
    let via = &relay.via;
    let address = format!(in alloc; "{via}")?;
    match connected(rt, address.as_str(), settings.timeout()) {
        Ok(stream) => source_over(rt, alloc, relay, settings, stream, pace, notes),
        Err(reason) => {
            notes.tell(reason);
            Ok(None)
        }
    }
}

/// A place for a source at a relay, of which no fetch has failed.
pub struct SourcePlace<S, K> {
    relay: u16,
    source: Result<Option<WsSource<S, K>>, Refusal>,
    // The pace of its fetches.
    pace: SharedPace,
    // Why there is none.
    notes: Notes,
}

// By hand, as a derived one is proved anew wherever a value is dropped.
impl<S: Drop, K: Drop> Drop for SourcePlace<S, K> {
    fn drop(self) {
        let Self {
            relay: _,
            source: _,
            pace: _,
            notes: _,
        } = self;
    }
}

impl<S, K> Model for SourcePlace<S, K> {
    ghost use Rattle.std.specs.Prelude.{◌≡◌, ℕ, IfOk, IfSome};

    ghost Value = { ℕ };

    ghost view = { λ p. p.relay };

    ghost invariant = { λ p. IfOk p.source (λ o. IfSome o (λ s. s.faults ≡ 0)) };
}

impl<S, K> SourcePlace<S, K> {
    /// A place without a source.
    pub fn new(alloc: Global, relay: u16) -> Result<SourcePlace<S, K>, AllocError> {
        let pace = Arc::new(alloc, Mutex::new(Pace::default()))?;
        Ok(SourcePlace {
            relay,
            source: Ok(None),
            pace,
            notes: Notes::none(),
        })
    }

    /// The relay, the source if it could be reached, the pace of its fetches, and why it couldn't be reached.
    pub fn into_parts(self) -> Result<(u16, Option<WsSource<S, K>>, SharedPace, Notes), Refusal>
        ensures { IfOk result (λ p. IfSome p.1 (λ source. source.faults ≡ 0)) }
    {
        let SourcePlace {
            relay,
            source,
            pace,
            notes,
        } = self;
        match source {
            Ok(found) => Ok((relay, found, pace, notes)),
            Err(refusal) => Err(refusal),
        }
    }
}

impl<'a, 's, R: Net<Listener = TcpListener, Stream = TcpStream> + RandomSource + Wait + Clock> Duty<
    SourcePlace<Paced<'a, R>, RandomKeys<&'a R>>,
> for Connecting<'a, 's, R> {
    fn work<W: Wait>(
        &self,
        _waits: &W,
        alloc: Global,
        place: &mut SourcePlace<Paced<'a, R>, RandomKeys<&'a R>>,
    ) {
        if let Some(relay) = self
            .settings
            .relays
            .as_slice()
            .get(usize::from(place.relay))
        {
            let source = source_at(
                self.rt,
                alloc,
                relay,
                self.settings,
                &place.pace,
                &mut place.notes,
            );
            drop(replace(&mut place.source, source));
        }
    }
}

/// Connects to the relay of each place, side by side.
pub fn connect_all<'a, R: Host>(
    rt: &'a R,
    alloc: Global,
    settings: &Settings,
    places: &mut [SourcePlace<Paced<'a, R>, RandomKeys<&'a R>>],
) {
    run_workers(rt, alloc, &Connecting { rt, settings }, places);
}

/// Ends the sessions, as far as that can be said to the relays.
pub fn finish_all<S: Read + Write + Drop, K: RandomSource + Drop, R, P>(
    peers: Vec<ToldPeer<'_, WsPeer<S, RandomKeys<K>>, R, P>>,
) {
    for told in peers {
        let _ = told.peer.finish();
    }
}
