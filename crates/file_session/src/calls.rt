//! The calls of a client, each as a step of a run, and what the client waits for then.

ghost use Rattle.std.specs.Prelude.{◌≡◌, ◌≢◌, ◌≤◌, ℕ, IfOk, IfSome, IsSome, OnOk, length, map, true};
ghost use Rattle.std.specs.Option.{option_copied};
ghost use Rattle.std.specs.Vec.{vec_items};
ghost use Rattle.layout.specs.Format.{IsBytes};
ghost use Rattle.client_tree.specs.declared.questions.Question.{Question as Asking};
ghost use Rattle.client_verify.specs.Laid.{are_laid};
ghost use Rattle.client_steps.specs.Anywhere.{asked, on_ok, seen};
ghost use Rattle.client_releases.specs.Told.{HasKey};
ghost use Rattle.client_verify.specs.State.{released};
ghost use Rattle.file_session.specs.Calls.{Begins, Commits, Gives, Hears, Leads, Looks, Resigns, Signs, Takes};
ghost use Rattle.file_session.specs.Calls.{lost_of};
ghost use Rattle.file_session.specs.Sessions.{IsUnfinished};
ghost use Rattle.file_session.specs.Tries.{leaves_left};
ghost use Rattle.file_session.specs.Waits.{AsksFewer, AsksFewerAt, Awaits, AwaitsAt, IsRange, WaitsAt, WaitsForBlock};

use client_tree::Question;
use client_verify::{Client, ClientError, Look, Phase, Step};
use layout::are_bytes;
use leaf_ledger::Device;
use std::alloc::Allocator;
use update_cert::{Change, MOST_CHANGES};
use wire::Status;

/// Declares an operation, for which these texts were laid out, and gives its signed certificate.
pub(crate) fn begin<L: Device, J: Device, A: Allocator + Copy>(
    client: &mut Client<L, J, A>,
    changes: &[Change<A>],
    laid: &[Vec<u8, A>],
) -> Result<Vec<u8, A>, ClientError>
    requires idle { client.old.phase ≡ Phase.Idle }
    requires few { length changes.now ≤ MOST_CHANGES }
    requires laid { are_laid (map vec_items laid.now) changes.now ≡ true }
    ensures leads { Leads client.old (Begins changes.now (map vec_items laid.now) (on_ok vec_items result)) client.new }
    ensures declared { OnOk result (client.new.phase ≡ Phase.Declared) }
    ensures text { IfOk result (λ text. text.items ≡ client.new.text) }
{
    let text = client.begin(changes, laid);
    client.type_invariant();
    text
}

/// Signs the certificate that is declared once more, by this key, and gives it.
pub(crate) fn resign<L: Device, J: Device, A: Allocator + Copy>(
    client: &mut Client<L, J, A>,
    key: usize,
) -> Result<Vec<u8, A>, ClientError>
    requires declared { client.old.phase ≡ Phase.Declared }
    requires key { HasKey key (released client.old) }
    ensures leads { Leads client.old (Resigns key (on_ok vec_items result)) client.new }
    ensures declared { OnOk result (client.new.phase ≡ Phase.Declared) }
    ensures text { IfOk result (λ text. text.items ≡ client.new.text) }
    ensures unfinished { IsUnfinished client.new }
    ensures secrets { client.new.secrets ≡ client.old.secrets }
    ensures others { (n : ℕ) → n ≢ key → leaves_left client.new n ≡ leaves_left client.old n }
{
    let text = client.resign(key);
    client.type_invariant();
    text
}

/// Hands the reply to the certificate in.
pub(crate) fn hear<L: Device, J: Device, A: Allocator + Copy>(
    client: &mut Client<L, J, A>,
    text: &[u8],
) -> Result<Step<A>, ClientError>
    requires { client.old.phase ≡ Phase.Declared }
    ensures leads { Leads client.old (Hears text.now (on_ok asked result)) client.new }
    ensures awaits { IfOk result (λ step. Awaits step client.new) }
    ensures phase { client.new.phase ≡ client.old.phase }
{
    are_bytes(text);
    let step = client.on_reply(text);
    client.type_invariant();
    step
}

/// That a block is bytes, where there is one. For the proofs of callers: it does nothing.
fn is_bytes(block: Option<&[u8]>)
    ensures { IfSome (option_copied block.entry) IsBytes }
{
    match block {
        Some(text) => are_bytes(text),
        None => {}
    }
}

/// Hands the block in that the reply under check asks for, or its absence.
pub(crate) fn take<L: Device, J: Device, A: Allocator + Copy>(
    client: &mut Client<L, J, A>,
    block: Option<&[u8]>,
) -> Result<Step<A>, ClientError>
    requires { WaitsForBlock client.old }
    ensures leads { Leads client.old (Takes (option_copied block.entry) (on_ok asked result)) client.new }
    ensures awaits { IfOk result (λ step. Awaits step client.new) }
    ensures fewer { IfOk result (λ step. AsksFewer step client.old client.new) }
    ensures phase { client.new.phase ≡ client.old.phase }
{
    is_bytes(block);
    let step = client.on_block(block);
    client.type_invariant();
    step
}

/// Signs over the accepted reply, and gives the signed structure: from here on there is its view.
pub(crate) fn sign<L: Device, J: Device, A: Allocator + Copy>(
    client: &mut Client<L, J, A>,
) -> Result<Vec<u8, A>, ClientError>
    requires { IsSome client.old.accepted }
    ensures leads { Leads client.old (Signs (on_ok vec_items result) (lost_of client.new)) client.new }
    ensures signed { OnOk result (client.new.phase ≡ Phase.Signed) }
    ensures view { OnOk result (IsSome client.new.view) }
    ensures text { IfOk result (λ text. text.items ≡ client.new.text) }
    ensures unfinished { IsUnfinished client.new }
{
    client.type_invariant();
    let text = client.sign();
    client.type_invariant();
    text
}

/// Hands the status of the commit in.
pub(crate) fn tell<L: Device, J: Device, A: Allocator + Copy>(
    client: &mut Client<L, J, A>,
    status: Status,
)
    requires { client.old.phase ≡ Phase.Signed }
    ensures leads { Leads client.old (Commits status) client.new }
    ensures idle { status ≡ Status.Ok → client.new.phase ≡ Phase.Idle }
    ensures unfinished { (status ≡ Status.Ok → ⊥) → IsUnfinished client.new }
    ensures view { client.new.view ≡ client.old.view }
{
    client.on_committed(status);
    client.type_invariant();
}

/// Asks a question about the accepted view.
pub(crate) fn ask<L: Device, J: Device, A: Allocator + Copy>(
    client: &mut Client<L, J, A>,
    question: Question,
) -> Result<Look<A>, ClientError>
    requires view { IsSome client.old.view }
    requires range { IsRange question }
    ensures leads { Leads client.old (Looks question (on_ok seen result)) client.new }
    ensures awaits { IfOk result (λ look. AwaitsAt question look client.new) }
    ensures phase { client.new.phase ≡ client.old.phase }
    ensures view { IsSome client.new.view }
{
    // For the proof: the number of its principal is below 96.
    match question {
        Question::At(principal, i_number) => {
            let _number = principal.get();
            let look = client.look(principal, i_number);
            client.type_invariant();
            look
        }
        Question::Kind(principal, i_number) => {
            let _number = principal.get();
            let look = client.kind(principal, i_number);
            client.type_invariant();
            look
        }
        Question::Free(principal, first, last) => {
            let _number = principal.get();
            let look = client.free(principal, first, last);
            client.type_invariant();
            look
        }
    }
}

/// Hands the block in that the look asks for, or its absence.
pub(crate) fn give<L: Device, J: Device, A: Allocator + Copy>(
    client: &mut Client<L, J, A>,
    block: Option<&[u8]>,
) -> Result<Look<A>, ClientError>
    requires { (q : Asking) × WaitsAt q client.old }
    ensures leads { (q : Asking)
        → Leads client.old (Gives q (option_copied block.entry) (on_ok seen result)) client.new }
    ensures awaits { (q : Asking) → WaitsAt q client.old → IfOk result (λ look. AwaitsAt q look client.new) }
    ensures fewer { IfOk result (λ look. AsksFewerAt look client.old client.new) }
    ensures phase { client.new.phase ≡ client.old.phase }
    ensures view { IsSome client.new.view }
{
    is_bytes(block);
    let look = client.give(block);
    client.type_invariant();
    look
}
