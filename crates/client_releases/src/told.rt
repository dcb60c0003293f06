//! What a journal tells of a client.

ghost use Rattle.std.specs.Prelude.{◌≡◌, ◌⊎◌, Some, None, IfErr, IfOk, IsErrOf};
ghost use Rattle.std.specs.Option.{option_map};
ghost use Rattle.client_journal.specs.Told.{state_of_held};
ghost use Rattle.client_releases.specs.Told.{after_cert, cert_in, structure_in, told_by};

use crate::error::ClientError;
use crate::phase::Phase;
use client_journal::JournalState;
use layout::{ReadError, Text, User};
use pending_list::Signed;
use std::alloc::Allocator;
use std::marker::Model;
use update_cert::Cert;
use version_order::Structure;

/// What the records of a journal tell: the number of the operation that was declared last, the structure that was
/// signed last, how far the operation is, and the text that was released last.
#[derive(Drop)]
pub(crate) struct Told<A: Allocator> {
    pub(crate) number: u32,
    pub(crate) last: Option<Signed<Structure<A>>>,
    pub(crate) phase: Phase,
    pub(crate) text: Vec<u8, A>,
}

impl<A: Allocator> Model for Told<A> {
    ghost use Rattle.client_releases.specs.Told.{Told};

    ghost Value = { Told };

    ghost view = { λ t. record { number = t.number; last = t.last; phase = t.phase; text = t.text.items } };
}

/// What the error of a text that was journaled comes to.
fn misread(error: ReadError) -> ClientError
    ensures memory { error ≡ ReadError.Memory → result ≡ ClientError.Memory }
    ensures damaged { (error ≡ ReadError.Memory → ⊥) → result ≡ ClientError.Damaged }
{
    match error {
        ReadError::Memory => ClientError::Memory,
        _ => ClientError::Damaged,
    }
}

/// The signed certificate of this user that a text is.
fn cert_in<A: Allocator + Copy>(
    alloc: A,
    user: User,
    text: &[u8],
) -> Result<Signed<Cert<A>>, ClientError>
    ensures found { IfOk result (λ c. cert_in user text.now ≡ Some c) }
    ensures damaged { IsErrOf result ClientError.Damaged → cert_in user text.now ≡ None }
    ensures only { IfErr result (λ e. (e ≡ ClientError.Memory) ⊎ (e ≡ ClientError.Damaged)) }
{
    let cert = match Signed::<Cert<A>>::read(alloc, text) {
        Ok(cert) => cert,
        Err(error) => return Err(misread(error)),
    };
    if cert.value.user() != user {
        return Err(ClientError::Damaged);
    }
    Ok(cert)
}

/// The signed structure of this user that a text is.
fn structure_in<A: Allocator + Copy>(
    alloc: A,
    user: User,
    text: &[u8],
) -> Result<Signed<Structure<A>>, ClientError>
    ensures found { IfOk result (λ z. structure_in user text.now ≡ Some z) }
    ensures damaged { IsErrOf result ClientError.Damaged → structure_in user text.now ≡ None }
    ensures only { IfErr result (λ e. (e ≡ ClientError.Memory) ⊎ (e ≡ ClientError.Damaged)) }
{
    let structure = match Signed::<Structure<A>>::read(alloc, text) {
        Ok(structure) => structure,
        Err(error) => return Err(misread(error)),
    };
    if structure.value.plan().user() != user {
        return Err(ClientError::Damaged);
    }
    Ok(structure)
}

/// What a certificate tells that was declared after this structure, if there is one.
fn told_by_cert<A: Allocator + Copy>(
    alloc: A,
    user: User,
    last: Option<Signed<Structure<A>>>,
    text: Vec<u8, A>,
) -> Result<Told<A>, ClientError>
    ensures found { IfOk result (λ t. option_map (after_cert last text.items) (cert_in user text.items) ≡ Some t) }
    ensures damaged { IsErrOf result ClientError.Damaged → cert_in user text.items ≡ None }
    ensures only { IfErr result (λ e. (e ≡ ClientError.Memory) ⊎ (e ≡ ClientError.Damaged)) }
{
    let cert = cert_in(alloc, user, &text)?;
    Ok(Told {
        number: cert.value.number().get(),
        last,
        phase: Phase::Declared,
        text,
    })
}

/// What the last records tell of the client of this user, if their texts are this user's.
pub(crate) fn told_by<A: Allocator + Copy>(
    alloc: A,
    user: User,
    state: JournalState<A>,
) -> Result<Told<A>, ClientError>
    ensures told { IfOk result (λ told. told_by user (state_of_held state) ≡ Some told) }
    ensures damaged { IsErrOf result ClientError.Damaged → told_by user (state_of_held state) ≡ None }
    ensures only { IfErr result (λ e. (e ≡ ClientError.Memory) ⊎ (e ≡ ClientError.Damaged)) }
{
    match state {
        JournalState::Idle => Ok(Told {
            number: 0,
            last: None,
            phase: Phase::Idle,
            text: Vec::new(alloc),
        }),
        JournalState::Declared(last, text) => {
            let last = match last {
                Some(last) => Some(structure_in(alloc, user, &last)?),
                None => None,
            };
            told_by_cert(alloc, user, last, text)
        }
        JournalState::Signed(text) => {
            let structure = structure_in(alloc, user, &text)?;
            Ok(Told {
                number: structure.value.plan().number().get(),
                last: Some(structure),
                phase: Phase::Signed,
                text,
            })
        }
    }
}
