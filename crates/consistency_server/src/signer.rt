//! Whose signature a text would bear, and by which key of that user it is judged.

ghost use Rattle.std.specs.Prelude.{◌≡◌, IfOk};
ghost use Rattle.consistency_server.specs.Signer.{update_signer, commit_signer, signer};

use crate::call::CallKind;
use crate::signed_text::{read_cert, read_structure};
use layout::{Memory, Principal, User};
use std::alloc::Allocator;

/// A user, and by which of its keys a signature is judged.
#[derive(Clone, Copy, Debug)]
pub struct Signer {
    pub user: User,
    /// The number of user 0's at which the user's key is looked up. None where it is the one that came last.
    pub version: Option<u32>,
}

/// The signer of the certificate, where the text is a signed one.
fn update_signer<A: Allocator + Copy>(alloc: A, text: &[u8]) -> Result<Option<Signer>, Memory>
    ensures { IfOk result (λ found. found ≡ update_signer text.now) }
{
    match read_cert(alloc, text)? {
        Some(found) => Ok(Some(Signer {
            user: found.value.user(),
            version: None,
        })),
        None => Ok(None),
    }
}

/// The signer of the structure, where the text is a signed one.
fn commit_signer<A: Allocator + Copy>(alloc: A, text: &[u8]) -> Result<Option<Signer>, Memory>
    ensures { IfOk result (λ found. found ≡ commit_signer text.now) }
{
    match read_structure(alloc, text)? {
        Some(found) => {
            let plan = found.value.plan();
            let version = plan.vector().version_of(Principal::from(User::superuser()));
            Ok(Some(Signer {
                user: plan.user(),
                version: Some(version),
            }))
        }
        None => Ok(None),
    }
}

/// Whose signature the text of a call would bear. None where it isn't a signed text of the call's kind.
pub fn signer_of<A: Allocator + Copy>(
    alloc: A,
    kind: CallKind,
    text: &[u8],
) -> Result<Option<Signer>, Memory>
    ensures { IfOk result (λ found. found ≡ signer kind text.now) }
{
    match kind {
        CallKind::Update => update_signer(alloc, text),
        CallKind::Commit => commit_signer(alloc, text),
    }
}
