//! What is told of an accepted view, with the structure that was signed over it.

ghost use Rattle.std.specs.Prelude.{◌≡◌, IfOk, IsSome, MatchOption};
ghost use Rattle.client_steps.specs.Steps.{HasSigned};
ghost use Rattle.client_steps.specs.Anywhere.{on_ok};
ghost use Rattle.client_steps.specs.NotCalled.{CantSign};
ghost use Rattle.client_runs.specs.Told.{IsAcceptedBy};

use crate::armed::MemoryClient;
use crate::world::Accepted;
use client_steps::sign;
use client_verify::ClientError;
use layout::Memory;
use pending_list::Signed;
use std::alloc::Allocator;
use version_order::Structure;

/// Copies of structures.
fn copies<A: Allocator + Copy>(
    alloc: A,
    structures: &[Signed<Structure<A>>],
) -> Result<Vec<Signed<Structure<A>>, A>, Memory>
    ensures { IfOk result (λ copies. copies.items ≡ structures.now) }
{
    let mut copies = Vec::new(alloc);
    for shown in structures {
        let value = shown.value.copy(alloc)?;
        copies.push(Signed {
            value,
            signature: shown.signature,
        })?;
    }
    Ok(copies)
}

/// What is told of the accepted view, with the signed structure.
fn told<A: Allocator + Copy>(
    alloc: A,
    client: &MemoryClient<A>,
    text: Vec<u8, A>,
) -> Result<Accepted<A>, Memory>
    requires { IsSome client.now.view }
    ensures text { IfOk result (λ accepted. accepted.text ≡ text) }
    ensures view { IfOk result (λ accepted. IsAcceptedBy accepted client.now.view) }
{
    let structures = copies(alloc, client.structures())?;
    let table = client.table().copy(alloc)?;
    let lost = Vec::from_slice(alloc, client.lost())?;
    Ok(Accepted {
        text,
        structures,
        table,
        lost,
    })
}

/// Signs what was accepted, where something was, and tells of the view.
pub(crate) fn sign_and_tell<A: Allocator + Copy>(
    alloc: A,
    client: &mut MemoryClient<A>,
) -> Result<Option<Result<Accepted<A>, ClientError>>, Memory>
    ensures signed { IfOk result (λ done. MatchOption done ((client.new ≡ client.old) × CantSign client.old)
        (λ answer. HasSigned client.old (on_ok (λ x. x.text.items) answer) client.new)) }
    ensures view { IfOk result (λ done. MatchOption done (Unit {0})
        (λ answer. IfOk answer (λ x. IsAcceptedBy x client.new.view))) }
{
    match sign(client) {
        Some(Ok(text)) => Ok(Some(Ok(told(alloc, client, text)?))),
        Some(Err(error)) => Ok(Some(Err(error))),
        None => Ok(None),
    }
}
