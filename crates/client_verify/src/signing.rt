//! The client signs the structure over the reply that it accepted, and takes the server's answer to it.

ghost use Rattle.std.specs.Prelude.{◌<◌, ◌↔◌, ◌≡◌, ◌≢◌, ◌⊎◌, IfErr, IfOk, IfSome, IsErrOf, IsSome, None, OnErr, OnOk, Some};
ghost use Rattle.std.specs.Prelude.{vec_capacity, vec_len};
ghost use Rattle.std.specs.Ordering.{nat_cmp};
ghost use Rattle.layout.specs.Ascending.{Ascends};
ghost use Rattle.leaf_ledger.specs.Ledger.{IsLeastFree, LeafNumber};
ghost use Rattle.version_order.specs.Structure.{structure};
ghost use Rattle.pending_list.specs.Reply.{user_of};
ghost use Rattle.client_releases.specs.Releasing.{AnyMoment, IsKept, IsTried, OneHasRisen, OthersStay};
ghost use Rattle.client_releases.specs.Releasing.{ledger_at, structure_record, under};
ghost use Rattle.client_releases.specs.Told.{HasKey, IsKeyUsedUp};
ghost use Rattle.client_verify.specs.State.{committed, failed, named_key, next_structure, on, over, released};
ghost use Rattle.client_verify.specs.State.{signed_over, signed_text, signer_of, signing_key};
ghost use Rattle.checked_blocks.specs.CheckedBlocks.{LetsGo};
ghost use Rattle.reply_check.specs.Good.{with_own};

use crate::client::Client;
use crate::structure::{Draft, draft_over};
use crate::view::{AcceptedView, Progress, Ready};
use client_releases::{ClientError, Phase};
use layout::{Memory, Principal, User, let_go, put_in};
use leaf_ledger::Device;
use lms_sign::PublicKey;
use pending_list::Signed;
use reply_check::with_own;
use std::alloc::Allocator;
use version_order::Structure;
use wire::Status;

/// The key by which this user is to sign the structure over an accepted reply, if there is one.
fn named_key<A: Allocator>(user: User, pinned: &PublicKey, ready: &Ready<A>) -> Option<PublicKey>
    ensures { result ≡ named_key pinned.now user ready.now }
{
    if user == User::superuser() {
        return Some(*pinned);
    }
    let vector = ready.good.lists().own().plan().vector();
    let version = vector.version_of(Principal::from(User::superuser()));
    ready.good.table().key_at(user, version)
}

/// What is signed next: the number of the key, the structure over the accepted reply, and the structures of the reply.
#[derive(Drop)]
struct Prepared<A: Allocator> {
    key: usize,
    draft: Draft<A>,
    copies: Vec<Signed<Structure<A>>, A>,
}

/// The view of an accepted reply, of which these are the structures, with the own new one in its user's place.
fn view_over<A: Allocator>(
    ready: Ready<A>,
    structures: Vec<Signed<Structure<A>>, A>,
    own: Signed<Structure<A>>,
) -> AcceptedView<A>
    requires room { vec_len structures < vec_capacity structures }
    requires ascending { Ascends nat_cmp user_of None structures.items }
    ensures { result ≡ record {
      lists = ready.lists;
      table = ready.table;
      structures = with_own own structures.items;
      lost = ready.lost;
      looking = None;
    } }
{
    AcceptedView {
        good: ready.good,
        structures: with_own(structures, own),
        lost: ready.lost,
        looking: None,
    }
}

impl<L: Device, J: Device, A: Allocator + Copy> Client<L, J, A> {
    /// The number of the own key that signs the structure over the accepted reply, if it is there.
    fn signer_of(&self) -> Option<usize>
        requires { IsSome self.now.accepted }
        ensures signer { IfSome self.now.accepted (λ r. result ≡ signer_of self.now r) }
        ensures has { IfSome result (λ n. HasKey n (released self.now)) }
    {
        let Progress::Accepted(ready) = &self.progress else {
            unreachable!()
        };
        match named_key(self.releases.user(), &self.pinned, ready) {
            Some(key) => self.releases.key_number(&key),
            None => None,
        }
    }

    /// The structure over the accepted reply, not signed yet, and the structures of the reply.
    fn draft(&self) -> Result<(Draft<A>, Vec<Signed<Structure<A>>, A>), Memory>
        requires { IsSome self.now.accepted }
        ensures structure { IfSome self.now.accepted
            (λ r. IfOk result (λ d. d.0.structure ≡ next_structure self.now r)) }
        ensures shown { IfOk result (λ d. d.0.shown ≡ d.0.structure) }
        ensures text { IfOk result (λ d. d.0.text ≡ structure.spell d.0.structure) }
        ensures fits { IfOk result (λ d. structure.Fits d.0.structure) }
        ensures structures { IfSome self.now.accepted (λ r. IfOk result (λ d. d.1.items ≡ r.lists.structures)) }
        ensures room { IfOk result (λ d. vec_len d.1 < vec_capacity d.1) }
        ensures ascending { IfOk result (λ d. Ascends nat_cmp user_of None d.1.items) }
    {
        let Progress::Accepted(ready) = &self.progress else {
            unreachable!()
        };
        let copies = ready.good.lists().copies(self.alloc)?;
        let draft = draft_over(
            self.alloc,
            ready.handle,
            &ready.records,
            self.releases.last(),
            ready.good.lists().own().plan(),
        )?;
        Ok((draft, copies))
    }

    /// What is signed next: the key, which has a free leaf, and the structure over the accepted reply. All growths but
    /// the journal's are here.
    fn prepared(&self) -> Result<Prepared<A>, ClientError>
        requires { IsSome self.now.accepted }
        ensures signer { IfSome self.now.accepted (λ r. IfOk result (λ p. Some p.key ≡ signer_of self.now r)) }
        ensures has { IfOk result (λ p. HasKey p.key (released self.now)) }
        ensures free { IfOk result (λ p. IsKeyUsedUp p.key (released self.now) → ⊥) }
        ensures structure { IfSome self.now.accepted
            (λ r. IfOk result (λ p. p.draft.structure ≡ next_structure self.now r)) }
        ensures shown { IfOk result (λ p. p.draft.shown ≡ p.draft.structure) }
        ensures text { IfOk result (λ p. p.draft.text ≡ structure.spell p.draft.structure) }
        ensures fits { IfOk result (λ p. structure.Fits p.draft.structure) }
        ensures structures { IfSome self.now.accepted (λ r. IfOk result (λ p. p.copies.items ≡ r.lists.structures)) }
        ensures room { IfOk result (λ p. vec_len p.copies < vec_capacity p.copies) }
        ensures ascending { IfOk result (λ p. Ascends nat_cmp user_of None p.copies.items) }
        ensures no_key { IfSome self.now.accepted
            (λ r. IsErrOf result ClientError.NoKey ↔ (signer_of self.now r ≡ None)) }
        ensures no_leaf { IfSome self.now.accepted (λ r. IsErrOf result ClientError.NoLeaf
            ↔ HasKey (signing_key self.now r) (released self.now)
            × IsKeyUsedUp (signing_key self.now r) (released self.now)) }
        ensures own { IfSome self.now.accepted
            (λ r. IsErrOf result ClientError.NoKey ⊎ HasKey (signing_key self.now r) (released self.now)) }
        ensures only { IfErr result (λ e. (e ≢ ClientError.Device) × (e ≢ ClientError.NoNumber)
            × (e ≢ ClientError.Foreign) × (e ≢ ClientError.Damaged)) }
    {
        let Some(key) = self.signer_of() else {
            return Err(ClientError::NoKey);
        };
        if !self.releases.has_free_leaf(key) {
            return Err(ClientError::NoLeaf);
        }
        match self.draft() {
            Ok((draft, copies)) => Ok(Prepared { key, draft, copies }),
            Err(_) => Err(ClientError::Memory),
        }
    }

    /// Signs what was prepared over the accepted reply. Where room was made for it, it takes no memory, and fails by the
    /// devices alone.
    fn sign_prepared(&mut self, prepared: Prepared<A>) -> Result<Vec<u8, A>, ClientError>
        requires accepted { IsSome self.old.accepted }
        requires signer { IfSome self.old.accepted (λ r. Some prepared.key ≡ signer_of self.old r) }
        requires has { HasKey prepared.key (released self.old) }
        requires free { IsKeyUsedUp prepared.key (released self.old) → ⊥ }
        requires structure { IfSome self.old.accepted (λ r. prepared.draft.structure ≡ next_structure self.old r) }
        requires shown { prepared.draft.shown ≡ prepared.draft.structure }
        requires text { prepared.draft.text ≡ structure.spell prepared.draft.structure }
        requires fits { structure.Fits prepared.draft.structure }
        requires structures { IfSome self.old.accepted (λ r. prepared.copies.items ≡ r.lists.structures) }
        requires room { vec_len prepared.copies < vec_capacity prepared.copies }
        requires ascending { Ascends nat_cmp user_of None prepared.copies.items }
        ensures signed { OnOk result (IfSome self.old.accepted (λ r. (leaf : LeafNumber)
            × IsKept leaf (structure_record (signed_text self.old leaf r))
            (under (signing_key self.old r) self.old.devices) (under (signing_key self.old r) self.new.devices)
            × (self.new ≡ over self.new.blocks (on self.new.devices (signed_over self.old leaf r))))) }
        ensures gone { OnOk result (LetsGo self.old.blocks self.new.blocks) }
        ensures text { IfOk result (λ text. text.items ≡ self.new.text) }
        ensures any_moment { IfSome self.old.accepted (λ r. (leaf : LeafNumber)
            → IsLeastFree (ledger_at (signing_key self.old r) self.old.devices).file.now.text leaf
            → AnyMoment leaf (structure_record (signed_text self.old leaf r))
            (under (signing_key self.old r) self.old.devices) (under (signing_key self.old r) self.new.devices)) }
        ensures tried { IfSome self.old.accepted
            (λ r. OnErr result (IsTried (λ leaf. structure_record (signed_text self.old leaf r))
            (under (signing_key self.old r) self.old.devices) (under (signing_key self.old r) self.new.devices))) }
        ensures rose { IfSome self.old.accepted (λ r. OnErr result (OneHasRisen
            (under (signing_key self.old r) self.old.devices) (under (signing_key self.old r) self.new.devices))) }
        ensures others { IfSome self.old.accepted
            (λ r. OthersStay (signing_key self.old r) self.old.devices self.new.devices) }
        ensures fits { IfSome self.old.accepted (λ r. structure.Fits (next_structure self.old r)) }
        ensures device { IfErr result (λ e. e ≡ ClientError.Device) }
        ensures err { OnErr result (self.new ≡ on self.new.devices (failed self.old)) }
    {
        self.releases.type_invariant();
        let Prepared { key, draft, copies } = prepared;
        let _size = self.releases.key(key).as_bytes();
        let ready = self.progress.take_accepted();
        let Draft {
            structure,
            shown,
            text,
        } = draft;
        match self.releases.sign(key, structure, text) {
            Ok((sent, signature)) => {
                let shown = Signed {
                    value: shown,
                    signature,
                };
                self.signer = Some(key);
                put_in(&mut self.view, Some(view_over(ready, copies, shown)));
                self.blocks.let_go();
                Ok(sent)
            }
            Err(error) => {
                let_go((ready, copies, shown));
                Err(error)
            }
        }
    }

    /// Signs the structure over the accepted reply by the key that the table of principals names for it, and gives it
    /// as it is sent; it stands in the journal by then. From here on the view is accepted. All growths come before the
    /// leaf is taken, also the room for it in the journal. After Device the client has to be opened again.
    pub fn sign(&mut self) -> Result<Vec<u8, A>, ClientError>
        requires { IsSome self.old.accepted }
        ensures signed { OnOk result (IfSome self.old.accepted (λ r. (leaf : LeafNumber)
            × IsKept leaf (structure_record (signed_text self.old leaf r))
            (under (signing_key self.old r) self.old.devices) (under (signing_key self.old r) self.new.devices)
            × (self.new ≡ over self.new.blocks (on self.new.devices (signed_over self.old leaf r))))) }
        // A look that was under way is over, so that nothing is.
        ensures gone { OnOk result (LetsGo self.old.blocks self.new.blocks) }
        ensures text { IfOk result (λ text. text.items ≡ self.new.text) }
        // What a crash leaves at any moment of the call, whatever it answers.
        ensures any_moment { IfSome self.old.accepted (λ r. HasKey (signing_key self.old r) (released self.old)
            → (leaf : LeafNumber) → IsLeastFree (ledger_at (signing_key self.old r) self.old.devices).file.now.text leaf
            → AnyMoment leaf (structure_record (signed_text self.old leaf r))
            (under (signing_key self.old r) self.old.devices) (under (signing_key self.old r) self.new.devices)) }
        ensures tried { IfSome self.old.accepted
            (λ r. OnErr result (IsTried (λ leaf. structure_record (signed_text self.old leaf r))
            (under (signing_key self.old r) self.old.devices) (under (signing_key self.old r) self.new.devices))) }
        // The key that is named for it is none of the own ones.
        ensures no_key { IfSome self.old.accepted
            (λ r. IsErrOf result ClientError.NoKey ↔ (signer_of self.old r ≡ None)) }
        ensures no_leaf { IfSome self.old.accepted (λ r. IsErrOf result ClientError.NoLeaf
            ↔ HasKey (signing_key self.old r) (released self.old)
            × IsKeyUsedUp (signing_key self.old r) (released self.old)) }
        ensures own { IfSome self.old.accepted
            (λ r. IsErrOf result ClientError.NoKey ⊎ HasKey (signing_key self.old r) (released self.old)) }
        ensures rose { IfSome self.old.accepted (λ r. IsErrOf result ClientError.Device → OneHasRisen
            (under (signing_key self.old r) self.old.devices) (under (signing_key self.old r) self.new.devices)) }
        // The ledgers of the other keys stay as they are.
        ensures others { IfSome self.old.accepted
            (λ r. OthersStay (signing_key self.old r) self.old.devices self.new.devices) }
        ensures fails { IsErrOf result ClientError.Device → self.new ≡ on self.new.devices (failed self.old) }
        // What is signed can be read again.
        ensures fits { OnOk result (IfSome self.old.accepted (λ r. structure.Fits (next_structure self.old r))) }
        ensures fits_device { IsErrOf result ClientError.Device
            → IfSome self.old.accepted (λ r. structure.Fits (next_structure self.old r)) }
        ensures only { IfErr result (λ e. (e ≢ ClientError.NoNumber) × (e ≢ ClientError.Foreign)
            × (e ≢ ClientError.Damaged)) }
        ensures err { IfErr result (λ e. e ≢ ClientError.Device → self.new ≡ self.old) }
    {
        self.releases.type_invariant();
        let prepared = match self.prepared() {
            Ok(prepared) => prepared,
            Err(error) => return Err(error),
        };
        if self.make_room(&prepared.draft.text).is_err() {
            let_go(prepared);
            return Err(ClientError::Memory);
        }
        self.sign_prepared(prepared)
    }

    /// Takes the server's answer to the structure: with status 0 the operation is over, and any other changes nothing.
    pub fn on_committed(&mut self, status: Status)
        requires { self.old.phase ≡ Phase.Signed }
        ensures { self.new ≡ committed status self.old }
    {
        if status == Status::Ok {
            self.releases.commit();
        }
    }
}
