//! A client whose devices fail, or crash, and one that is opened again.

use crate::clients::{Kept, MemoryClient, is_in, kept_of};
use client_verify::{ClientError, Phase};
use leaf_ledger::MemoryDevice;
use std::alloc::Global;
use tests_aids::texts::joined;
use tests_aids::{Aided, check};

/// What a crash leaves of a device.
#[derive(Clone, Copy)]
pub enum Left {
    /// What was there at the last sync.
    Synced,
    /// All that was written.
    Written,
}

/// The bytes that such a crash leaves of the device.
pub fn bytes_left(rt: &impl Aided, device: &MemoryDevice<Global>, left: Left) -> Vec<u8> {
    match left {
        Left::Synced => joined(rt, &[device.synced_text()]),
        Left::Written => joined(rt, &[device.text()]),
    }
}

/// The device after a crash that left this.
fn crashed(rt: &impl Aided, device: MemoryDevice<Global>, left: Left) -> MemoryDevice<Global> {
    let left = bytes_left(rt, &device, left);
    match device.crash(left) {
        Ok(device) => device,
        Err((error, _)) => rt.fail(error),
    }
}

/// What the client hands back when it is closed.
pub fn closed(rt: &impl Aided, client: MemoryClient) -> Kept {
    kept_of(rt, client.close())
}

/// What is kept of a client after a crash that left this.
pub fn after_crash(rt: &impl Aided, client: MemoryClient, left: Left) -> Kept {
    let Kept {
        key,
        ledger,
        journal,
    } = closed(rt, client);
    Kept {
        key,
        ledger: crashed(rt, ledger, left),
        journal: crashed(rt, journal, left),
    }
}

/// A device failed in this call: nothing is handed out, and the client is to be opened again.
pub fn has_failed(rt: &impl Aided, client: &MemoryClient, answer: &Result<Vec<u8>, ClientError>) {
    let failed = matches!(answer, Err(ClientError::Device));
    check(rt, failed, "a device failed");
    is_in(rt, client, Phase::Failed);
}

/// The certificate that it has declared.
pub fn declared(rt: &impl Aided, client: &MemoryClient) -> Vec<u8> {
    if client.phase() != Phase::Declared {
        rt.fail("nothing is declared");
    }
    joined(rt, &[client.declared()])
}

/// The structure that it has signed.
pub fn structure(rt: &impl Aided, client: &MemoryClient) -> Vec<u8> {
    if client.phase() != Phase::Signed {
        rt.fail("nothing is signed");
    }
    joined(rt, &[client.signed()])
}
