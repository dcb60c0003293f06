//! A user that signs what it is shown.

use crate::caller::{CallError, Caller};
use crate::signer::Signer;
use layout::{Memory, Text, digest, let_go};
use lms_sign::{PrivateKey, PublicKey};
use pending_list::Reply;
use std::alloc::Global;
use std::io::{Read, Write};
use wire::{RequestKind, Status};

/// How often a call that is answered Busy is sent again.
const TRIES: u32 = 1_000_000;

/// A user whose key's seed and identifier have its number everywhere, before its first operation or between two.
#[derive(Drop)]
pub struct PlainUser {
    alloc: Global,
    user: u8,
    signer: Signer,
    number: u32,
    /// The digest of its last structure.
    last: [u8; 32],
    /// How often a call was answered Busy.
    busy: u32,
}

/// The size of a text, as it stands before it in another one.
fn size_of(text: &[u8]) -> [u8; 2] {
    let [.., high, low] = text.len().to_be_bytes();
    [high, low]
}

/// The text of the last plan of the lists with which an UPDATE was answered.
fn last_plan(alloc: Global, lists: &[u8]) -> Result<Vec<u8>, CallError> {
    let Ok(lists) = Reply::read(alloc, lists) else {
        return Err(CallError::Form);
    };
    let plan = match lists.pending().last() {
        Some(own) => Some(own.plan().text(alloc)),
        None => None,
    };
    let_go(lists);
    match plan {
        Some(plan) => Ok(plan?),
        None => Err(CallError::Form),
    }
}

impl PlainUser {
    /// Before its first operation.
    pub fn new(alloc: Global, user: u8) -> Result<PlainUser, Memory> {
        let key = PrivateKey::from_seed(alloc, [user; 32], [user; 16])?;
        Ok(PlainUser {
            alloc,
            user,
            signer: Signer::new(alloc, key)?,
            number: 0,
            last: [0; 32],
            busy: 0,
        })
    }

    /// Its public key.
    pub fn public(&self) -> PublicKey {
        self.signer.key.public()
    }

    /// How often a call of its operations was answered Busy, and sent again.
    pub fn busy(&self) -> u32 {
        self.busy
    }

    /// These texts one after another, and their signature by the next leaf.
    fn signed(&mut self, texts: &[&[u8]]) -> Result<Vec<u8>, CallError> {
        let mut text = Vec::new(self.alloc);
        for piece in texts {
            text.extend_from_slice(piece)?;
        }
        let signature = self.signer.sign(&text)?;
        text.extend_from_slice(&signature)?;
        Ok(text)
    }

    /// The certificate of the next operation, with changes that are spelled already, after their count.
    pub fn certificate(&mut self, changes: &[u8]) -> Result<Vec<u8>, CallError> {
        let number = self.number.wrapping_add(1).to_be_bytes();
        let (user, last) = ([self.user], self.last);
        self.signed(&[b"SUC1", &user, &number, &last, changes])
    }

    /// The structure over the last plan of the lists with which an UPDATE was answered, with a handle of zeros and no
    /// records.
    pub fn structure(&mut self, lists: &[u8]) -> Result<Vec<u8>, CallError> {
        let plan = last_plan(self.alloc, lists)?;
        let signed = self.signed(&[b"SVS1", &size_of(&plan), &plan, &[0; 32], &[0]])?;
        let text = &signed[..signed.len().saturating_sub(2508)];
        self.last = *digest(text).as_bytes();
        self.number = self.number.wrapping_add(1);
        Ok(signed)
    }

    /// Makes an operation: the statuses of its two calls, Ok twice where it was committed.
    pub fn operate<S: Read + Write + Drop>(
        &mut self,
        caller: &mut Caller<S>,
        changes: &[u8],
    ) -> Result<(Status, Status), CallError> {
        let certificate = self.certificate(changes)?;
        let (placed, lists) = insist(caller, RequestKind::Update, &certificate, &mut self.busy)?;
        if placed != Status::Ok {
            return Ok((placed, placed));
        }
        let structure = self.structure(&lists)?;
        let (committed, _) = insist(caller, RequestKind::Commit, &structure, &mut self.busy)?;
        Ok((placed, committed))
    }
}

/// The changes that list these users, after their count, which is at most 255.
pub fn listing(alloc: Global, users: &[PlainUser]) -> Result<Vec<u8>, CallError> {
    let Ok(count) = u8::try_from(users.len()) else {
        return Err(CallError::Form);
    };
    let mut changes = Vec::from_slice(alloc, &[count])?;
    for user in users {
        changes.extend_from_slice(&[6, user.user])?;
        changes.extend_from_slice(user.public().as_bytes())?;
    }
    Ok(changes)
}

/// Asks, and again where the answer is Busy, which is counted.
fn insist<S: Read + Write + Drop>(
    caller: &mut Caller<S>,
    kind: RequestKind,
    text: &[u8],
    busy: &mut u32,
) -> Result<(Status, Vec<u8>), CallError> {
    if text.len() >= 2_097_152 {
        return Err(CallError::Form);
    }
    for _try in 0..TRIES {
        let replied = caller.ask(kind, text)?;
        if replied.status != Status::Busy {
            return Ok((replied.status, replied.payload));
        }
        *busy = busy.saturating_add(1);
    }
    Err(CallError::Lost)
}
