//! Servers, which answer by bytes: the honest one, others that were forked from it, and one that can lie.

use consistency_server::CallKind;
use hostile_server::{Hostile, Refused};
use lms_sign::PublicKey;
use std::alloc::Global;
use tests_aids::{Aided, check, check_text, found, given};
use tests_client_aids::servers::{Server, answers_commit, answers_update_so, server_of};
use wire::Status;

/// All servers.
#[derive(Drop)]
pub(crate) struct Servers {
    honest: Vec<Server>,
    pub(crate) lying: Hostile<Global>,
}

/// One honest server, and the one that can lie, where this is user 0's key.
pub(crate) fn new_servers(rt: &impl Aided, pinned: PublicKey) -> Servers {
    let mut honest = Vec::new(rt.alloc());
    given(rt, honest.push(server_of(rt, pinned)), "memory");
    Servers {
        honest,
        lying: Hostile::genesis(rt.alloc(), pinned),
    }
}

/// An honest server answers this status to a certificate, `u`, or a structure, `c`: the payload.
fn payload_of(
    rt: &impl Aided,
    server: &mut Server,
    call: u8,
    text: &[u8],
    status: Status,
) -> Vec<u8> {
    if call == b'u' {
        return answers_update_so(rt, server, text, status);
    }
    answers_commit(rt, server, text, status);
    Vec::new(rt.alloc())
}

/// The server that can lie answers this status: the payload.
fn payload_of_lying(
    rt: &impl Aided,
    server: &mut Hostile<Global>,
    call: u8,
    text: &[u8],
    status: Status,
) -> Vec<u8> {
    let answer = if call == b'u' {
        server.update(text)
    } else {
        server.commit(text).map(|()| Vec::new(rt.alloc()))
    };
    match answer {
        Ok(payload) => {
            check(rt, status == Status::Ok, "a refusal");
            payload
        }
        Err(Refused(found)) => {
            check(rt, found == status, "the status");
            Vec::new(rt.alloc())
        }
    }
}

impl Servers {
    /// The honest server of this place answers status 0: the payload.
    pub(crate) fn asked(
        &mut self,
        rt: &impl Aided,
        place: usize,
        call: u8,
        text: &[u8],
    ) -> Vec<u8> {
        let server = found(rt, self.honest.get_mut(place), "a server");
        payload_of(rt, server, call, text, Status::Ok)
    }

    /// The honest server of this place declines the signature of a certificate.
    pub(crate) fn declines(&mut self, rt: &impl Aided, place: usize, certificate: &[u8]) {
        let server = found(rt, self.honest.get_mut(place), "a server");
        let payload = payload_of(rt, server, b'u', certificate, Status::BadSignature);
        check(rt, payload.is_empty(), "no payload");
    }

    /// The server that can lie answers so: the payload.
    pub(crate) fn lying_asked(&mut self, rt: &impl Aided, call: u8, text: &[u8]) -> Vec<u8> {
        payload_of_lying(rt, &mut self.lying, call, text, Status::Ok)
    }

    /// The first server and the one that can lie answer this status and this payload.
    pub(crate) fn both_answer(
        &mut self,
        rt: &impl Aided,
        (call, text): (u8, &[u8]),
        status: Status,
        payload: &[u8],
    ) {
        let honest = found(rt, self.honest.first_mut(), "a server");
        check_text(rt, &payload_of(rt, honest, call, text, status), payload);
        let lying = payload_of_lying(rt, &mut self.lying, call, text, status);
        check_text(rt, &lying, payload);
    }

    /// Another server that has answered the same calls so far as the first one, where this is user 0's key: its place.
    pub(crate) fn fork(&mut self, rt: &impl Aided, pinned: PublicKey) -> usize {
        let mut fork = server_of(rt, pinned);
        for call in found(rt, self.honest.first(), "a server").log.calls() {
            let letter = match call.kind() {
                CallKind::Update => b'u',
                CallKind::Commit => b'c',
            };
            let _payload = payload_of(rt, &mut fork, letter, call.text(), Status::Ok);
        }
        given(rt, self.honest.push(fork), "memory");
        self.honest.len().wrapping_sub(1)
    }
}
