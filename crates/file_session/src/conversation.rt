//! A client, and the transport to its server.

use crate::listed::Listed;
use client_verify::Client;
use leaf_ledger::Device;
use std::alloc::Allocator;

/// A client, and the transport to its server. Each call and each exchange is a move of a run of both.
pub(crate) struct Conversation<L: Device, J: Device, T, A: Allocator> {
    pub(crate) alloc: A,
    pub(crate) client: Client<L, J, A>,
    pub(crate) transport: T,
    /// What the client is likely to ask for next.
    pub(crate) listed: Listed<A>,
}
