//! What a peer and a source have in common: a stream, what is logged of it, and how calls over it failed.
ghost use Rattle.std.specs.Prelude.{◌≡◌, ◌+◌, ◌<◌, ◌^◌, ◌-◌, [], IfOk, IfErr, OnOk, OnErr, Some, None, if◌then◌else◌};
ghost use Rattle.ws_link.specs.Wired.{failures_of};

use crate::notes::Notes;
use std::alloc::Global;
use wire::{Trail, Wire};
use ws_socket::LinkFault;

/// A link over a stream. `E` is an entry of its log.
pub struct Link<S, K, E> {
    pub alloc: Global,
    /// None once a call has failed, so that no later call gets what came for an earlier one.
    pub wire: Option<Wire<S, K>>,
    pub log: Vec<E>,
    pub failures: u64,
    pub last_fault: Option<LinkFault>,
    pub notes: Notes,
    /// What the stream gave and took that is let go.
    pub given: Trail,
    pub taken: Trail,
}

// By hand, as a derived one is proved anew wherever a value is dropped.
impl<S: Drop, K: Drop, E: Drop> Drop for Link<S, K, E> {
    fn drop(self) {
        let Self {
            alloc: _,
            wire: _,
            log: _,
            failures: _,
            last_fault: _,
            notes: _,
            given: _,
            taken: _,
        } = self;
    }
}

impl<S: Drop, K: Drop, E: Drop> Link<S, K, E> {
    /// A link over the wire, if there is one, with nothing in its log.
    pub fn new(alloc: Global, wire: Option<Wire<S, K>>, notes: Notes) -> Link<S, K, E>
        ensures wire { result.wire ≡ wire }
        ensures log { result.log.items ≡ [] }
        ensures failures { result.failures ≡ 0 }
        ensures last_fault { result.last_fault ≡ None }
        ensures given { result.given ≡ [] }
        ensures taken { result.taken ≡ [] }
    {
        Link {
            alloc,
            wire,
            log: Vec::new(alloc),
            failures: 0,
            last_fault: None,
            notes,
            given: Trail::new(),
            taken: Trail::new(),
        }
    }

    /// Takes the wire out, for a call. `Link` where there is none.
    pub fn take_out(&mut self) -> Result<Wire<S, K>, LinkFault>
        ensures wire { IfOk result (λ wire. self.old.wire ≡ Some wire) }
        ensures none { IfErr result (λ e. (e ≡ LinkFault.Link) × (self.old.wire ≡ None)) }
        ensures rest { self.new ≡ record self.old { wire = None } }
    {
        match self.wire.take() {
            Some(wire) => Ok(wire),
            None => Err(LinkFault::Link),
        }
    }

    /// Puts the wire back behind a call. Where that failed, the stream is let go.
    pub fn put_back<T>(
        &mut self,
        wire: Wire<S, K>,
        done: Result<T, LinkFault>,
    ) -> Result<T, LinkFault>
        ensures result { result ≡ done }
        ensures ok { OnOk result (self.new ≡ record self.old { wire = Some wire }) }
        ensures err { OnErr result (self.new ≡ record self.old { given = wire.given; taken = wire.taken }) }
    {
        match done {
            Ok(answer) => {
                self.wire = Some(wire);
                Ok(answer)
            }
            Err(fault) => {
                let (given, taken) = wire.into_trails();
                self.given = given;
                self.taken = taken;
                Err(fault)
            }
        }
    }

    /// Notes the fault, and gives whether it is a failure. Want of memory is none.
    pub fn fail(&mut self, fault: LinkFault) -> bool
        requires few { self.old.failures < 2 ^ 64 - 1 }
        ensures noted { self.new ≡ record self.old { failures = self.old.failures + failures_of fault; last_fault = Some fault } }
        ensures failure { failures_of fault ≡ (if result then 1 else 0) }
    {
        let is_failure = match &fault {
            LinkFault::Memory => false,
            _ => true,
        };
        if is_failure {
            self.failures += 1;
        }
        self.last_fault = Some(fault);
        is_failure
    }
}
