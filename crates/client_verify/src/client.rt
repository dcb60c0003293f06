//! A client: what it is made of, how it is opened and closed, and what it tells.

ghost use Rattle.std.specs.Prelude.{◌↔◌, ◌≡◌, ◌≢◌, ◌≤◌, ◌⊎◌, IfErr, IfOk, IfSome, IsSome, IsSomeAnd, IsTrue, None, Some};
ghost use Rattle.std.specs.Prelude.{◌<◌, ◌^◌, [], false, length, map};
ghost use Rattle.std.specs.Option.{option_map};
ghost use Rattle.client_tree.specs.Genesis.{first_blocks};
ghost use Rattle.checked_blocks.specs.CheckedBlocks.{at_first};
ghost use Rattle.client_releases.specs.Told.{HasKey};

use crate::view::{AcceptedView, Progress};
use checked_blocks::CheckedBlocks;
use client_releases::{ClientError, Keys, Parts, Phase, Releases};
use client_tree::first_blocks;
use layout::{Memory, User, let_go};
use leaf_ledger::Device;
use lms_sign::PublicKey;
use pending_list::Signed;
use principals::Table;
use std::alloc::Allocator;
use std::marker::Model;
use version_order::Structure;

/// A client of one user, over ledgers of its keys' leaves and a journal of what it released.
///
/// A user has one journal, and each of its keys one ledger. One that is dropped is as after a crash.
#[derive(Drop)]
pub struct Client<L: Device, J: Device, A: Allocator> {
    pub(crate) alloc: A,
    pub(crate) pinned: PublicKey,
    pub(crate) releases: Releases<L, J, A>,
    // The number of the key of which it is known that it signed the last structure and the last text. It isn't known of
    // those that a journal tells.
    pub(crate) signer: Option<usize>,
    pub(crate) blocks: CheckedBlocks<A>,
    pub(crate) progress: Progress<A>,
    pub(crate) view: Option<AcceptedView<A>>,
}

impl<L: Device, J: Device, A: Allocator> Model for Client<L, J, A> {
    ghost use Rattle.std.specs.Prelude.{IfSome};
    ghost use Rattle.client_verify.specs.State.{AreReplies, State};
    ghost use Rattle.client_verify.specs.Progress.{accepted_of, checked_of};
    ghost use Rattle.client_verify.specs.OwnTexts.{SignedBoth};

    ghost Value = { State };

    ghost view = { λ c. record {
      user = c.releases.user;
      secrets = c.releases.secrets;
      pinned = c.pinned;
      devices = c.releases.devices;
      number = c.releases.number;
      last = c.releases.last;
      phase = c.releases.phase;
      text = c.releases.text;
      blocks = c.blocks;
      checked = checked_of c.progress;
      accepted = accepted_of c.progress;
      view = c.view;
    } };

    ghost invariant = { λ c. AreReplies c.releases (checked_of c.progress) (accepted_of c.progress)
        × IfSome c.signer (λ n. SignedBoth n c.releases) };
}

/// The number of the newest key where nothing was released yet: then there is no text of another.
fn first_signer<L: Device, J: Device, A: Allocator>(releases: &Releases<L, J, A>) -> Option<usize>
    ensures { IfSome result
        (λ n. HasKey n releases.now × (releases.now.last ≡ None) × (releases.now.text ≡ [])) }
{
    releases.type_invariant();
    if releases.last().is_none() && releases.text().is_empty() {
        Some(releases.key_count() - 1)
    } else {
        None
    }
}

/// What is known of blocks before anything was checked: those of the beginning.
fn known_at_first<A: Allocator + Copy>(
    alloc: A,
    pinned: &PublicKey,
) -> Result<CheckedBlocks<A>, Memory>
    ensures { IfOk result (λ blocks. blocks ≡ at_first (first_blocks pinned.now)) }
{
    let first = first_blocks(alloc, pinned.as_bytes())?;
    CheckedBlocks::new(alloc, first)
}

impl<L: Device, J: Device, A: Allocator + Copy> Client<L, J, A> {
    ghost use Rattle.std.specs.Prelude.{ℕ, List};
    ghost use Rattle.itable.specs.File.{NoneCollide};
    ghost use Rattle.update_cert.specs.World.{genesis as first_tree, File, is_table};
    ghost use Rattle.update_cert.specs.Reading.{Reading};
    ghost use Rattle.itable.specs.ITable.{digest_at};
    ghost use Rattle.tree_parts.specs.Blocks.{Agrees};
    ghost use Rattle.checked_blocks.specs.CheckedBlocks.{AreChecked, known_blocks};
    ghost use Rattle.client_tree.specs.Genesis.{first_table, first_texts, table_text};
    ghost use Rattle.leaf_ledger.specs.Device.{HasRisen};
    ghost use Rattle.client_journal.specs.Records.{IsDamaged};
    ghost use Rattle.client_releases.specs.OwnKeys.{AreLater, AreOpened, OneIsForeign, OneOfHasRisen, key_files};
    ghost use Rattle.client_releases.specs.Releasing.{IsOpening, ledger_at};
    ghost use Rattle.client_verify.specs.State.{AreReplies, opened, released};
    ghost use Rattle.client_releases.specs.Told.{IsReleased, IsToldBy, TellsOfOther};

    /// Opens the client of this user over its devices, before its first operation or after a crash: a declared
    /// operation goes on with its certificate, and a signed one with its structure. The keys are the user's, the oldest
    /// first. User 0's public key is known to every client. A refusal hands back what was handed in.
    pub fn open(
        alloc: A,
        user: User,
        keys: Keys<L, A>,
        pinned: PublicKey,
        journal: J,
    ) -> Result<Client<L, J, A>, (ClientError, Parts<L, J, A>)>
        requires { 0 < length keys.items }
        ensures state { IfOk result (λ client. client ≡ opened pinned (released client)) }
        ensures whose { IfOk result (λ client. (client.user ≡ user) × (client.secrets ≡ map (λ k. k.0) keys.items)) }
        // It is as the journal told, and as it tells still.
        ensures told { IfOk result (λ client. IsToldBy (J.history journal).now.text (released client)) }
        // Each ledger is opened: the same leaves are used as before, none of a new ledger.
        ensures ledgers { IfOk result
            (λ client. AreOpened (key_files L.history L.fault_count keys.items) client.devices.ledgers) }
        // What all devices go through meanwhile.
        ensures moments { IfOk result (λ client. IsOpening (map (λ k. L.history k.1) keys.items) (J.history journal)
            (map (λ l. l.file) client.devices.ledgers) client.devices.journal.file) }
        ensures moments_err { IfErr result (λ e. IsOpening (map (λ k. L.history k.1) keys.items) (J.history journal)
            (map (λ k. L.history k.1) e.1.keys.items) (J.history e.1.journal)) }
        ensures foreign { IfErr result (λ e. e.0 ≡ ClientError.Foreign
            → OneIsForeign (key_files L.history L.fault_count keys.items)) }
        ensures damaged { IfErr result (λ e. e.0 ≡ ClientError.Damaged
            → IsDamaged (J.history journal).now.text ⊎ TellsOfOther user (J.history journal).now.text) }
        ensures device { IfErr result (λ e. e.0 ≡ ClientError.Device
            → OneOfHasRisen (map (λ k. L.fault_count k.1) keys.items) (map (λ k. L.fault_count k.1) e.1.keys.items)
            ⊎ HasRisen (J.fault_count journal) (J.fault_count e.1.journal)) }
        ensures only { IfErr result (λ e. (e.0 ≢ ClientError.NoLeaf) × (e.0 ≢ ClientError.NoNumber)
            × (e.0 ≢ ClientError.NoKey)) }
        ensures later { IfOk result (λ client. J.fault_count journal ≤ client.devices.journal.faults) }
        ensures later_err { IfErr result
            (λ e. AreLater (map (λ k. L.fault_count k.1) keys.items) (map (λ k. L.fault_count k.1) e.1.keys.items)
            × (J.fault_count journal ≤ J.fault_count e.1.journal)) }
        ensures keys_err { IfErr result (λ e. map (λ k. k.0) e.1.keys.items ≡ map (λ k. k.0) keys.items) }
        // What the i-tables of the beginning have is the tree of the beginning, unless two texts of it have one digest.
        ensures genesis { IfOk result (λ client. NoneCollide (first_texts pinned) (first_texts pinned)
            → (reads : Reading) → Agrees (known_blocks client.blocks) reads
            → (p i : ℕ) → is_table p i ≡ false
            → option_map reads.content (digest_at (first_table p pinned) i) ≡ first_tree pinned p i) }
        // The table of principals lies in its text, a file.
        ensures table_file { IfOk result (λ client. NoneCollide (first_texts pinned) (first_texts pinned)
            → (reads : Reading) → Agrees (known_blocks client.blocks) reads
            → option_map reads.content (digest_at (first_table 0 pinned) 1) ≡ Some (File (table_text pinned))) }
    {
        let _size = pinned.as_bytes();
        let Ok(blocks) = known_at_first(alloc, &pinned) else {
            return Err((ClientError::Memory, Parts { keys, journal }));
        };
        match Releases::open(alloc, user, keys, journal) {
            Ok(releases) => {
                let signer = first_signer(&releases);
                Ok(Client {
                    alloc,
                    pinned,
                    releases,
                    signer,
                    blocks,
                    progress: Progress::None,
                    view: None,
                })
            }
            Err(refused) => Err(refused),
        }
    }

    /// Hands back what it was opened over, in any phase.
    pub fn close(self) -> Parts<L, J, A>
        ensures keys { map (λ k. k.0) result.keys.items ≡ self.secrets }
        ensures ledgers { map (λ k. L.history k.1) result.keys.items ≡ map (λ l. l.file) self.devices.ledgers }
        ensures faults { map (λ k. L.fault_count k.1) result.keys.items ≡ map (λ l. l.faults) self.devices.ledgers }
        ensures journal { J.history result.journal ≡ self.devices.journal.file }
        ensures journal_faults { J.fault_count result.journal ≡ self.devices.journal.faults }
    {
        let Client {
            alloc: _,
            pinned: _,
            releases,
            signer: _,
            blocks,
            progress,
            view,
        } = self;
        let_go(blocks);
        let_go(progress);
        let_go(view);
        releases.close()
    }

    /// What is true of it at all times. For the proofs of callers: it does nothing.
    pub fn type_invariant(&self)
        ensures released { IsReleased (released self.now) }
        ensures replies { AreReplies (released self.now) self.now.checked self.now.accepted }
        ensures checked { AreChecked self.now.blocks }
        ensures few { length self.now.blocks.held < 2 ^ 63 }
    {
        self.releases.type_invariant();
        self.blocks.type_invariant();
        let _held = self.blocks.held_len();
        let _progress = &self.progress;
    }

    /// What it knows of checked blocks, to be counted.
    pub fn blocks(&self) -> &CheckedBlocks<A>
        ensures { result.now ≡ self.now.blocks }
    {
        &self.blocks
    }

    /// The device of this key's ledger, to be looked at.
    pub fn ledger_of(&self, key: usize) -> &L
        requires { HasKey key (released self.now) }
        ensures file { L.history result.now ≡ (ledger_at key self.now.devices).file }
        ensures faults { L.fault_count result.now ≡ (ledger_at key self.now.devices).faults }
    {
        self.releases.ledger(key)
    }

    /// And that of the journal.
    pub fn journal(&self) -> &J
        ensures file { J.history result.now ≡ self.now.devices.journal.file }
        ensures faults { J.fault_count result.now ≡ self.now.devices.journal.faults }
    {
        self.releases.journal()
    }

    /// Whose client it is.
    pub fn user(&self) -> User
        ensures { result ≡ self.now.user }
    {
        self.releases.user()
    }

    /// The number of the operation that was declared last, 0 where none was.
    pub fn number(&self) -> u32
        ensures { result ≡ self.now.number }
    {
        self.releases.number()
    }

    /// How far it is with its operation.
    pub fn phase(&self) -> Phase
        ensures { result ≡ self.now.phase }
    {
        self.releases.phase()
    }

    /// Whether a reply is under check, of which a block is asked for.
    pub fn wants(&self) -> bool
        ensures { IsTrue result ↔ IsSome self.now.checked }
    {
        matches!(self.progress, Progress::Checking(_))
    }

    /// Whether a reply was accepted whose structure isn't signed yet.
    pub fn ready(&self) -> bool
        ensures { IsTrue result ↔ IsSome self.now.accepted }
    {
        matches!(self.progress, Progress::Accepted(_))
    }

    /// Whether there is an accepted view.
    pub fn has_view(&self) -> bool
        ensures { IsTrue result ↔ IsSome self.now.view }
    {
        self.view.is_some()
    }

    /// Whether a look is under way, for which a block is asked for.
    pub fn looking(&self) -> bool
        ensures { IsTrue result ↔ IsSomeAnd self.now.view (λ v. IsSome v.looking) }
    {
        self.view
            .as_ref()
            .is_some_and(|view| view.looking.is_some())
    }

    /// The signed certificate, to be sent again.
    pub fn declared(&self) -> &[u8]
        requires { self.now.phase ≡ Phase.Declared }
        ensures { result.now ≡ self.now.text }
    {
        self.releases.text()
    }

    /// The signed structure, to be sent again.
    pub fn signed(&self) -> &[u8]
        requires { self.now.phase ≡ Phase.Signed }
        ensures { result.now ≡ self.now.text }
    {
        self.releases.text()
    }

    /// The structures of the accepted view, with the own one in its user's place.
    pub fn structures(&self) -> &[Signed<Structure<A>>]
        requires { IsSome self.now.view }
        ensures { IsSomeAnd self.now.view (λ v. v.structures ≡ result.now) }
    {
        match &self.view {
            Some(view) => &view.structures,
            None => &[],
        }
    }

    /// The numbers, from 1 and ascending, of the changes of the own operation that had no effect in the accepted view.
    pub fn lost(&self) -> &[u8]
        requires { IsSome self.now.view }
        ensures { IsSomeAnd self.now.view (λ v. v.lost ≡ result.now) }
    {
        match &self.view {
            Some(view) => &view.lost,
            None => &[],
        }
    }

    /// The table of principals of the accepted view.
    pub fn table(&self) -> &Table<A>
        requires { IsSome self.now.view }
        ensures { IsSomeAnd self.now.view (λ v. v.table ≡ result.now) }
    {
        match &self.view {
            Some(view) => view.good.table(),
            None => unreachable!(),
        }
    }
}
