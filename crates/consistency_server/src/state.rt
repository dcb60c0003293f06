//! What the server keeps of its events, and what a call leads to by it.

ghost use Rattle.std.specs.Prelude.{◌≡◌, ◌<◌, ◌∷◌, ◌++◌, [], true, false, None, Err, OnOk, OnErr, IfOk, IsTrue, not};
ghost use Rattle.std.specs.Prelude.{filter, find, vec_len, vec_capacity};
ghost use Rattle.std.specs.Option.{option_copied, option_map_or};
ghost use Rattle.std.specs.Ordering.{nat_cmp};
ghost use Rattle.layout.specs.Ascending.{Ascends, with_row};
ghost use Rattle.layout.specs.Format.{whole};
ghost use Rattle.version_order.specs.Plan.{entry_of};
ghost use Rattle.version_order.specs.Structure.{structure};
ghost use Rattle.update_cert.specs.Cert.{cert, digest_of};
ghost use Rattle.pending_list.specs.Signed.{signed};
ghost use Rattle.pending_list.specs.Reply.{user_of, reply};
ghost use Rattle.principals.specs.Table.{genesis, key_of, lists_user};
ghost use Rattle.consistency_server.specs.Event.{Placed};
ghost use Rattle.consistency_server.specs.State.{after_operation, pending_of, next_plan, next_reply, commits};
ghost use Rattle.consistency_server.specs.Answers.{Happens, outcome_of, read_update, read_commit, update_beside};
ghost use Rattle.consistency_server.specs.Answers.{placing, committing, same_cert, same_structure, structure_of};
ghost use Rattle.consistency_server.specs.Answers.{at_limit, is_next, verifies};
ghost use Rattle.consistency_server.specs.Signer.{judging_key};
ghost use Rattle.consistency_server.specs.History.{call_of};
ghost use Rattle.consistency_server.specs.Judged.{JudgedAs, Admits, changed, reply_beside, table_or};

use crate::call::{Call, CallKind};
use crate::item::SpelledItem;
use crate::log::Log;
use crate::payload::Payload;
use crate::placement::{Placement, entries_of, have_plan, pending_of, place, take_out, with_cert};
use crate::refusal::Refusal;
use crate::reply_text::reply_text;
use crate::signed_text::{is_signed, read_cert, read_structure, unsigned};
use crate::signer::Signer;
use crate::structures::{SpelledStructure, digest_of_last, put, structure_of};
use crate::verification::Verification;
use layout::{Digest, Memory, Principal, User, digest, let_go, put_in};
use lms_sign::PublicKey;
use pending_list::{Signed, groups_at};
use principals::Table;
use std::alloc::Allocator;
use std::marker::Model;
use update_cert::{Cert, table_after};
use version_order::{Entries, Entry, Plan, PlanError, Structure, Vector, next_plan};
use wire::Status;

/// What the server keeps of its events.
#[derive(Drop)]
pub(crate) struct State<A: Allocator> {
    table: Table<A>,
    vector: Vector<A>,
    structures: Vec<SpelledStructure<A>, A>,
    pending: Vec<Placement<A>, A>,
}

impl<A: Allocator> Model for State<A> {
    ghost use Rattle.consistency_server.specs.State.{State};
    ghost use Rattle.consistency_server.specs.Tidy.{IsTidy};

    ghost Value = { State };

    ghost view = { λ s. record {
      table = s.table;
      vector = s.vector;
      structures = s.structures.items;
      pending = s.pending.items;
    } };

    ghost invariant = { λ s. IsTidy
        (record { table = s.table; vector = s.vector; structures = s.structures.items; pending = s.pending.items }) };
}

/// An event, with all that is kept of it.
#[derive(Drop)]
pub(crate) enum NewEvent<A: Allocator> {
    /// An operation is placed: the table after it, if it may change the table; the vector after it; and the operation.
    Places(Option<Table<A>>, Vector<A>, Placement<A>),
    /// Its structure is committed.
    Commits(SpelledStructure<A>),
}

/// What an operation brings that is placed next: the table after it, if it may change the table; its vector; what later
/// plans have of it; and the text of its reply, which is kept and handed out.
#[derive(Drop)]
struct Brought<A: Allocator> {
    table: Option<Table<A>>,
    vector: Vector<A>,
    entry: Entry,
    reply: Payload<A>,
    payload: Payload<A>,
}

/// What a call leads to.
#[derive(Drop)]
pub(crate) enum Verdict<A: Allocator> {
    /// Nothing, for this reason.
    Refused(Status),
    /// The same payload as before.
    Repeated(Payload<A>),
    /// This new event, and the payload.
    Happens(NewEvent<A>, Payload<A>),
}

/// Keeps a new table, if there is one.
fn keep<A: Allocator>(kept: &mut Table<A>, table: Option<Table<A>>)
    ensures { kept.new ≡ table_or table kept.old }
{
    if let Some(table) = table {
        *kept = table;
    }
}

/// Puts a structure among the latest, where there is room, and takes its operation out.
fn commit<A: Allocator>(
    structures: &mut Vec<SpelledStructure<A>, A>,
    pending: &mut Vec<Placement<A>, A>,
    structure: SpelledStructure<A>,
)
    requires ascending { Ascends nat_cmp user_of None structures.old.items }
    requires room { vec_len structures.old < vec_capacity structures.old }
    ensures structures { structures.new.items ≡ with_row nat_cmp user_of structures.old.items structure }
    ensures pending { pending.new.items ≡ filter (λ w. not (commits structure w)) pending.old.items }
{
    let plan = structure.plan();
    take_out(pending, plan.user(), plan.number());
    put(structures, structure).unwrap();
}

/// Makes room for an event, and puts its call into the log.
fn log_with_room<A: Allocator, G: Log<Call<A>>>(
    structures: &mut Vec<SpelledStructure<A>, A>,
    pending: &mut Vec<Placement<A>, A>,
    log: &mut G,
    call: Call<A>,
) -> Result<(), Refusal>
    ensures structures { structures.new.items ≡ structures.old.items }
    ensures pending { pending.new.items ≡ pending.old.items }
    ensures room { OnOk result (vec_len structures.new < vec_capacity structures.new) }
    ensures room_pending { OnOk result (vec_len pending.new < vec_capacity pending.new) }
    ensures log { OnOk result (G.pushed log.new ≡ G.pushed log.old ++ call ∷ []) }
    ensures log_err { OnErr result (G.pushed log.new ≡ G.pushed log.old) }
    ensures busy { result ≡ Err Refusal.Busy → IsTrue (G.may_be_full log.old) }
{
    structures.reserve(1)?;
    pending.reserve(1)?;
    log.try_push(call)?;
    Ok(())
}

impl<A: Allocator> State<A> {
    /// Lets an event happen: room is made for it, the call goes to the log, and then what is kept changes, which can't
    /// fail.
    pub(crate) fn happen<G: Log<Call<A>>>(
        &mut self,
        log: &mut G,
        call: Call<A>,
        event: NewEvent<A>,
    ) -> Result<(), Refusal>
        requires { Admits self.old event }
        ensures state { OnOk result (self.new ≡ changed self.old event) }
        ensures log { OnOk result (G.pushed log.new ≡ G.pushed log.old ++ call ∷ []) }
        ensures state_err { OnErr result (self.new ≡ self.old) }
        ensures log_err { OnErr result (G.pushed log.new ≡ G.pushed log.old) }
        ensures busy { result ≡ Err Refusal.Busy → IsTrue (G.may_be_full log.old) }
    {
        let logged = log_with_room(&mut self.structures, &mut self.pending, log, call);
        if logged.is_err() {
            let_go(event);
            return logged;
        }
        match event {
            NewEvent::Places(table, vector, placement) => {
                keep(&mut self.table, table);
                put_in(&mut self.vector, vector);
                place(&mut self.pending, placement);
            }
            NewEvent::Commits(structure) => {
                commit(&mut self.structures, &mut self.pending, structure);
            }
        }
        logged
    }
}

impl<A: Allocator + Copy> State<A> {
    /// Before the first event. `pinned` is user 0's key.
    pub(crate) fn new(alloc: A, pinned: PublicKey) -> State<A>
        ensures { result ≡ record { table = genesis pinned; vector = []; structures = []; pending = [] } }
    {
        State {
            table: Table::genesis(alloc, pinned),
            vector: Vector::new(alloc),
            structures: Vec::new(alloc),
            pending: Vec::new(alloc),
        }
    }

    /// The key of a user that came last.
    pub(crate) fn last_key(&self, user: User) -> Option<PublicKey>
        ensures { result ≡ key_of user self.now.table }
    {
        self.table.key_of(user)
    }

    /// The key by which a signature is judged.
    pub(crate) fn key_of(&self, signer: Signer) -> Option<PublicKey>
        ensures { result ≡ judging_key signer self.now.table }
    {
        match signer.version {
            Some(version) => self.table.key_at(signer.user, version),
            None => self.last_key(signer.user),
        }
    }

    /// Whether a user is listed.
    fn lists(&self, user: User) -> bool
        ensures { result ≡ lists_user self.now.table user }
    {
        self.table.since(user).is_some()
    }

    /// What a call leads to.
    #[tactic(auto, unfolding(crate::specs::Answers::outcome_of))]
    pub(crate) fn judge(
        &self,
        alloc: A,
        kind: CallKind,
        text: &[u8],
        known: Option<&Verification<'_>>,
    ) -> Result<Verdict<A>, Memory>
        ensures { IfOk result (λ judged. JudgedAs self.now judged (outcome_of self.now (call_of kind text.now))) }
    {
        match kind {
            CallKind::Update => self.judge_update(alloc, text, known),
            CallKind::Commit => self.judge_commit(alloc, text, known),
        }
    }

    /// What an UPDATE leads to.
    fn judge_update(
        &self,
        alloc: A,
        text: &[u8],
        known: Option<&Verification<'_>>,
    ) -> Result<Verdict<A>, Memory>
        ensures { IfOk result (λ judged. JudgedAs self.now judged
            (read_update self.now (whole (signed cert) text.now))) }
    {
        match read_cert(alloc, text)? {
            Some(found) => self.judge_certificate(alloc, text, found, known),
            None => Ok(Verdict::Refused(Status::Form)),
        }
    }

    /// What a certificate leads to: the reply of the operation that is pending with it, before anything else.
    fn judge_certificate(
        &self,
        alloc: A,
        text: &[u8],
        found: Signed<Cert<A>>,
        known: Option<&Verification<'_>>,
    ) -> Result<Verdict<A>, Memory>
        requires { text.now ≡ (signed cert).spell found }
        ensures { IfOk result (λ judged. JudgedAs self.now judged
            (update_beside (find (same_cert found) self.now.pending) self.now found)) }
    {
        match with_cert(&self.pending, text) {
            Some(placement) => Ok(Verdict::Repeated(placement.reply().share()?)),
            None => self.judge_signed(alloc, text, found, known),
        }
    }

    /// What a certificate leads to that isn't pending: by its signature first, under the key of its user that came
    /// last.
    fn judge_signed(
        &self,
        alloc: A,
        text: &[u8],
        found: Signed<Cert<A>>,
        known: Option<&Verification<'_>>,
    ) -> Result<Verdict<A>, Memory>
        requires { text.now ≡ (signed cert).spell found }
        ensures { IfOk result (λ judged. JudgedAs self.now judged (update_beside None self.now found)) }
    {
        let Some(key) = self.last_key(found.value.user()) else {
            let_go(found);
            return Ok(Verdict::Refused(Status::UnknownUser));
        };
        if !is_signed::<A, Cert<A>>(&key, &found, text, known) {
            let_go(found);
            return Ok(Verdict::Refused(Status::BadSignature));
        }
        self.judge_new(alloc, text, found)
    }

    /// What a certificate leads to that isn't pending, and that its user signed.
    fn judge_new(&self, alloc: A, text: &[u8], found: Signed<Cert<A>>) -> Result<Verdict<A>, Memory>
        requires { text.now ≡ (signed cert).spell found }
        ensures { IfOk result (λ judged. JudgedAs self.now judged (placing self.now found)) }
    {
        if !self.is_next(&found.value) {
            let_go(found);
            return Ok(Verdict::Refused(Status::WrongNumber));
        }
        let certificate = digest(unsigned::<A, Cert<A>>(&found, text));
        match self.plan(alloc, &found.value, certificate) {
            Ok(plan) => self.judge_planned(alloc, text, found, plan),
            Err(error) => {
                let_go(found);
                match error {
                    PlanError::Limit => Ok(Verdict::Refused(Status::TooLarge)),
                    PlanError::Memory => Err(Memory),
                }
            }
        }
    }

    /// Whether it is the user's next operation, where no other of the user's is pending, and names the user's last
    /// structure.
    fn is_next(&self, cert: &Cert<A>) -> bool
        ensures { result ≡ is_next self.now cert.now }
    {
        let user = cert.user();
        let placed = self.vector.version_of(Principal::from(user));
        if cert.number().get() - 1 != placed || pending_of(&self.pending, user).is_some() {
            return false;
        }
        let last = digest_of_last(structure_of(&self.structures, user));
        cert.last().as_bytes() == last.as_bytes()
    }

    /// The plan of the next operation, whose certificate has this digest.
    fn plan(&self, alloc: A, cert: &Cert<A>, certificate: Digest) -> Result<Plan<A>, PlanError>
        requires { certificate ≡ digest_of cert.now }
        ensures plan { IfOk result (λ plan. plan ≡ next_plan self.now cert.now) }
        ensures within { OnOk result (at_limit self.now cert.now ≡ false) }
        ensures limit { result ≡ Err PlanError.Limit → at_limit self.now cert.now ≡ true }
    {
        let number = self.vector.version_of(Principal::from(User::superuser()));
        let groups = groups_at(alloc, &self.table, number, cert)?;
        let entries = entries_of(alloc, &self.pending)?;
        next_plan(
            alloc,
            &self.vector,
            entries,
            cert.user(),
            cert.number(),
            certificate,
            &groups,
        )
    }

    /// What the next certificate leads to, where this is its plan.
    fn judge_planned(
        &self,
        alloc: A,
        text: &[u8],
        found: Signed<Cert<A>>,
        plan: Plan<A>,
    ) -> Result<Verdict<A>, Memory>
        requires text { text.now ≡ (signed cert).spell found }
        requires free { pending_of found.value.user self.now.pending ≡ None }
        requires plan { plan ≡ next_plan self.now found.value }
        ensures { IfOk result (λ judged. JudgedAs self.now judged
            (Happens (Placed found) (reply.spell (next_reply self.now found)))) }
    {
        let _user = found.value.user();
        let item = SpelledItem::new(alloc, found, text, plan)?;
        match self.brought(alloc, &item) {
            Ok(brought) => {
                let Brought {
                    table,
                    vector,
                    entry,
                    reply,
                    payload,
                } = brought;
                let placement = Placement::new(item, entry, reply);
                Ok(Verdict::Happens(NewEvent::Places(table, vector, placement), payload))
            }
            Err(error) => {
                let_go(item);
                Err(error)
            }
        }
    }

    /// What an operation brings that is placed next.
    fn brought(&self, alloc: A, item: &SpelledItem<A>) -> Result<Brought<A>, Memory>
        requires { pending_of item.now.cert.user self.now.pending ≡ None }
        ensures table { IfOk result
            (λ b. table_or b.table self.now.table ≡ after_operation item.now.cert self.now.table) }
        ensures vector { IfOk result (λ b. b.vector ≡ item.now.plan.vector) }
        ensures entry { IfOk result (λ b. b.entry ≡ entry_of item.now.plan) }
        ensures reply { IfOk result (λ b. b.reply ≡ reply.spell (reply_beside self.now item.now)) }
        ensures payload { IfOk result (λ b. b.payload ≡ reply.spell (reply_beside self.now item.now)) }
    {
        let reply = self.reply_to(alloc, item)?;
        let payload = reply.share()?;
        let entry = item.entry();
        let vector = item.plan().vector().copy(alloc)?;
        let table = table_after(alloc, &self.table, item.cert())?;
        Ok(Brought {
            table,
            vector,
            entry,
            reply,
            payload,
        })
    }

    /// The text of the reply to an operation that is placed next.
    fn reply_to(&self, alloc: A, item: &SpelledItem<A>) -> Result<Payload<A>, Memory>
        requires { pending_of item.now.cert.user self.now.pending ≡ None }
        ensures { IfOk result (λ text. text ≡ reply.spell (reply_beside self.now item.now)) }
    {
        let _user = item.cert().user();
        reply_text(alloc, &self.structures, &self.pending, item)
    }

    /// What a COMMIT leads to.
    fn judge_commit(
        &self,
        alloc: A,
        text: &[u8],
        known: Option<&Verification<'_>>,
    ) -> Result<Verdict<A>, Memory>
        ensures { IfOk result (λ judged. JudgedAs self.now judged
            (read_commit self.now (whole (signed structure) text.now))) }
    {
        let Some(found) = read_structure(alloc, text)? else {
            return Ok(Verdict::Refused(Status::Form));
        };
        if !self.lists(found.value.plan().user()) {
            let_go(found);
            return Ok(Verdict::Refused(Status::UnknownUser));
        }
        if !self.has_signed(&found, text, known) {
            let_go(found);
            return Ok(Verdict::Refused(Status::BadSignature));
        }
        self.judge_structure(alloc, text, found)
    }

    /// Whether a structure is signed by the key that its user has at its plan's version of user 0.
    fn has_signed(
        &self,
        found: &Signed<Structure<A>>,
        text: &[u8],
        known: Option<&Verification<'_>>,
    ) -> bool
        requires { text.now ≡ (signed structure).spell found.now }
        ensures { result ≡ verifies self.now.table found.now }
    {
        let plan = found.value.plan();
        let version = plan.vector().version_of(Principal::from(User::superuser()));
        match self.table.key_at(plan.user(), version) {
            Some(key) => is_signed::<A, Structure<A>>(&key, found, text, known),
            None => false,
        }
    }

    /// What a structure leads to, of a user who signed it.
    fn judge_structure(
        &self,
        alloc: A,
        text: &[u8],
        found: Signed<Structure<A>>,
    ) -> Result<Verdict<A>, Memory>
        requires { text.now ≡ (signed structure).spell found }
        ensures { IfOk result (λ judged. JudgedAs self.now judged (committing self.now found)) }
    {
        if self.is_last(&found, text) {
            let_go(found);
            return Ok(Verdict::Repeated(Payload::empty()));
        }
        self.judge_other(alloc, text, found)
    }

    /// What a structure leads to that isn't its user's last one.
    fn judge_other(
        &self,
        alloc: A,
        text: &[u8],
        found: Signed<Structure<A>>,
    ) -> Result<Verdict<A>, Memory>
        requires text { text.now ≡ (signed structure).spell found }
        requires other { option_map_or (same_structure found) (structure_of found.value.plan.user self.now) false
            ≡ false }
        ensures { IfOk result (λ judged. JudgedAs self.now judged (committing self.now found)) }
    {
        match have_plan(alloc, &self.pending, found.value.plan()) {
            Ok(true) => {
                let structure = SpelledStructure::new(alloc, found, text)?;
                Ok(Verdict::Happens(NewEvent::Commits(structure), Payload::empty()))
            }
            Ok(false) => {
                let_go(found);
                Ok(Verdict::Refused(Status::NotPending))
            }
            Err(error) => {
                let_go(found);
                Err(error)
            }
        }
    }

    /// Whether it is its user's last structure, where the text spells it.
    fn is_last(&self, found: &Signed<Structure<A>>, text: &[u8]) -> bool
        requires { text.now ≡ (signed structure).spell found.now }
        ensures { result
            ≡ option_map_or (same_structure found.now) (structure_of found.now.value.plan.user self.now) false }
    {
        match structure_of(&self.structures, found.value.plan().user()) {
            Some(last) => last.is_spelled(text),
            None => false,
        }
    }
}
