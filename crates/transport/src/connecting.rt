//! A transport that connects when it is first wanted.

ghost use Rattle.std.specs.Prelude.{◌≡◌, ◌≤◌, ◌⊎◌, [], false, None, IfOk, IfErr};
ghost use Rattle.leaf_ledger.specs.Device.{HasRisen};
ghost use Rattle.transport.specs.declared.transport.TransportError.TheVariants as why;

use crate::framed::Framed;
use crate::transport::{Ahead, Request, Transport, TransportError};
use connection::{Connection, ConnectionFault};
use std::alloc::Allocator;
use std::marker::Model;

/// What connects to a server.
pub trait Connect<C: Connection>: Drop {
    ghost use Rattle.std.specs.Prelude.{◌≡◌, true, None};

    /// A new connection to the server.
    fn connect(&mut self) -> Result<C, ConnectionFault>;

    /// Whether requests may go ahead of replies over its connections: only where these don't tell their bytes.
    fn may_go_ahead(&self) -> bool
        ensures { result ≡ true → (connection : C) → C.told connection ≡ None }
    {
        false
    }
}

/// A transport that connects at its first exchange, and then is one over that connection. A refused connection counts
/// as a fault; the next exchange tries again.
#[derive(Drop)]
pub struct Connecting<K: Connect<C>, C: Connection, A: Allocator> {
    alloc: A,
    connect: K,
    refused: u64,
    framed: Option<Framed<C, A>>,
}

impl<K: Connect<C>, C: Connection, A: Allocator> Model for Connecting<K, C, A> {
    ghost use Rattle.transport.specs.Connecting.{Link};

    ghost Value = { Link };

    ghost view = { λ c. record { refused = c.refused; joined = c.framed } };
}

/// A new connection, over which nothing went. A refusal is counted.
fn join<K: Connect<C>, C: Connection, A: Allocator + Copy>(
    alloc: A,
    connect: &mut K,
    refused: &mut u64,
) -> Result<Framed<C, A>, TransportError>
    ensures ok { IfOk result (λ f. (f.waiting ≡ []) × (f.broken ≡ false) × (refused.new ≡ refused.old)) }
    ensures err { IfErr result (λ e. ((e ≡ why.Fault) × HasRisen refused.old refused.new) ⊎ (e ≡ why.Memory)) }
    ensures later { refused.old ≤ refused.new }
{
    match connect.connect() {
        Ok(connection) => {
            let may_go_ahead = connect.may_go_ahead();
            Ok(Framed::going_ahead(alloc, connection, may_go_ahead)?)
        }
        Err(_) => {
            *refused = refused.saturating_add(1);
            Err(TransportError::Fault)
        }
    }
}

impl<K: Connect<C>, C: Connection, A: Allocator + Copy> Connecting<K, C, A> {
    /// It isn't connected.
    pub fn new(alloc: A, connect: K) -> Connecting<K, C, A>
        ensures { result ≡ record { refused = 0; joined = None } }
    {
        Connecting {
            alloc,
            connect,
            refused: 0,
            framed: None,
        }
    }

    /// The transport over its connection, if it has one.
    pub fn into_framed(self) -> Option<Framed<C, A>>
        ensures { result ≡ self.joined }
    {
        let Connecting { framed, .. } = self;
        framed
    }
}

impl<K: Connect<C>, C: Connection, A: Allocator + Copy> Transport<A> for Connecting<K, C, A> {
    ghost use Rattle.transport.specs.Connecting.{Reached, link_faults};
    ghost use Rattle.transport.specs.ConnectingLaws.{never_less, fault_rises};

    ghost answers = { λ before asked result now. Reached asked result before now };

    ghost fault_count = { link_faults };

    fn exchange(&mut self, request: &Request<'_>) -> Result<Vec<u8, A>, TransportError> {
        self.exchange_ahead(request, &Ahead::Nothing)
    }

    fn exchange_ahead(
        &mut self,
        request: &Request<'_>,
        ahead: &Ahead<'_, A>,
    ) -> Result<Vec<u8, A>, TransportError> {
        let mut framed = match self.framed.take() {
            Some(framed) => framed,
            None => join(self.alloc, &mut self.connect, &mut self.refused)?,
        };
        let answer = framed.exchange_ahead(request, ahead);
        self.framed = Some(framed);
        answer
    }

    fn faults(&self) -> u64 {
        let failed = match &self.framed {
            Some(framed) => framed.faults(),
            None => 0,
        };
        self.refused.saturating_add(failed)
    }

    ghost later = { never_less };

    ghost rose = { fault_rises };
}
