//! The server.

use crate::editing::{Edit, cut, flipped, with_structure, without_item, without_structure};
use crate::lists::Listed;
use crate::pending::{Pending, Placement, copy_text};
use crate::refused::Refused;
use crate::texts::{is_signed, spells, unsigned};
use layout::{Digest, Memory, Principal, ReadError, Text, User, beside, digest, let_go, put_in};
use lms_sign::PublicKey;
use pending_list::{MOST_ROWS, PendingItem, Reply, Signed, digest_of_last, groups_at};
use principals::Table;
use std::alloc::Allocator;
use update_cert::{Cert, table_after};
use version_order::{Plan, Structure, Vector, next_plan};
use wire::Status;

/// A server with lists of its own.
#[derive(Drop)]
pub struct Hostile<A: Allocator> {
    alloc: A,
    /// The table of principals after all operations that were placed.
    table: Table<A>,
    /// The vector of the one that was placed last.
    vector: Vector<A>,
    listed: Listed<A>,
    pending: Pending<A>,
}

/// What an operation brings that is placed: itself, the table after it, where it may change that, and its vector.
#[derive(Drop)]
struct Brought<A: Allocator> {
    placement: Placement<A>,
    table: Option<Table<A>>,
    vector: Vector<A>,
    /// The reply, to be handed out.
    reply: Vec<u8, A>,
}

impl<A: Allocator + Copy> Hostile<A> {
    /// A server before the first operation. `pinned` is user 0's key.
    pub fn genesis(alloc: A, pinned: PublicKey) -> Hostile<A> {
        Hostile {
            alloc,
            table: Table::genesis(alloc, pinned),
            vector: Vector::new(alloc),
            listed: Listed::new(alloc),
            pending: Pending::new(alloc),
        }
    }

    /// The reply to an UPDATE, whose text is a signed certificate: the structures ascending by user, and what is
    /// pending in the order of placing, with the own operation last. It is refused as the honest server refuses it;
    /// which number is a user's next is told by its latest listed structure.
    pub fn update(&mut self, text: &[u8]) -> Result<Vec<u8, A>, Refused> {
        let found = Signed::<Cert<A>>::read(self.alloc, text)?;
        match self.judge_update(text, &found.value) {
            Ok(None) => self.place(text, found),
            Ok(Some(reply)) => {
                let_go(found);
                Ok(reply)
            }
            Err(refused) => {
                let_go(found);
                Err(refused)
            }
        }
    }

    /// Carries out a COMMIT, whose text is a signed structure, or refuses it as the honest server does.
    pub fn commit(&mut self, text: &[u8]) -> Result<(), Refused> {
        let found = Signed::<Structure<A>>::read(self.alloc, text)?;
        match self.judge_commit(text, &found) {
            Ok(true) => Ok(self.list(found)?),
            Ok(false) => {
                let_go(found);
                Ok(())
            }
            Err(refused) => {
                let_go(found);
                Err(refused)
            }
        }
    }

    /// The reply after this edit.
    pub fn edit(&self, reply: Vec<u8, A>, edit: Edit) -> Result<Vec<u8, A>, Memory> {
        match edit {
            Edit::DropStructure(user) => without_structure(self.alloc, reply, user),
            Edit::OldStructure(user, number) => self.roll_back(reply, user, number),
            Edit::HideItem(user) => without_item(self.alloc, reply, user),
            Edit::Cut(size) => Ok(cut(reply, size)),
            Edit::Flip(place) => Ok(flipped(reply, place)),
        }
    }

    /// A server that goes on from here by itself.
    pub fn copy(&self) -> Result<Hostile<A>, Memory> {
        let alloc = self.alloc;
        let (table, vector) = beside(self.table.copy(alloc)?, self.vector.copy(alloc))?;
        let listed = self.listed.copy(alloc);
        let ((table, vector), listed) = beside((table, vector), listed)?;
        let pending = self.pending.copy(alloc);
        let ((table, vector, listed), pending) = beside((table, vector, listed), pending)?;
        Ok(Hostile {
            alloc,
            table,
            vector,
            listed,
            pending,
        })
    }

    /// Gives the plan of a user's pending operation an entry of another's committed one, in the place of the one of
    /// that user. The reply that was made stays; later plans have the new plan's digest. False where the user has
    /// nothing pending, or the other nothing committed: then nothing changes.
    pub fn invent(&mut self, user: User, other: User) -> Result<bool, Memory> {
        match self.listed.entry_of(self.alloc, other)? {
            Some(entry) => self.pending.add_entry(self.alloc, user, entry),
            None => Ok(false),
        }
    }

    /// Lists a user's signed structure, unchecked, as its latest one, and takes out what the user has pending. The
    /// table and the vector that plans build on stay. False where the text is no signed structure: then nothing
    /// changes.
    pub fn force(&mut self, text: &[u8]) -> Result<bool, Memory> {
        match Signed::<Structure<A>>::read(self.alloc, text) {
            Ok(found) => {
                self.list(found)?;
                Ok(true)
            }
            Err(ReadError::Memory) => Err(Memory),
            Err(_) => Ok(false),
        }
    }

    /// Lists a structure as its user's latest, and takes out what the user has pending.
    fn list(&mut self, structure: Signed<Structure<A>>) -> Result<(), Memory> {
        let user = structure.value.plan().user();
        self.listed.list(self.alloc, structure)?;
        self.pending.take_out(user);
        Ok(())
    }

    /// Whether the certificate of this text is signed by the key of its user that came last.
    fn judge_cert(&self, text: &[u8], cert: &Cert<A>) -> Result<(), Refused> {
        match self.table.key_of(cert.user()) {
            Some(key) if is_signed(&key, text) => Ok(()),
            Some(_) => Err(Refused(Status::BadSignature)),
            None => Err(Refused(Status::UnknownUser)),
        }
    }

    /// Whether a structure's text is signed by the key that its user has at its plan's version of user 0.
    fn judge_structure(&self, text: &[u8], plan: &Plan<A>) -> Result<(), Refused> {
        let user = plan.user();
        if self.table.since(user).is_none() {
            return Err(Refused(Status::UnknownUser));
        }
        let version = plan.vector().version_of(Principal::from(User::superuser()));
        match self.table.key_at(user, version) {
            Some(key) if is_signed(&key, text) => Ok(()),
            _ => Err(Refused(Status::BadSignature)),
        }
    }

    /// The reply that was made for the certificate of this text, if it is pending, before anything else; none where it
    /// is the user's next.
    fn judge_update(&self, text: &[u8], cert: &Cert<A>) -> Result<Option<Vec<u8, A>>, Refused> {
        if let Some(reply) = self.pending.reply_to(text) {
            return Ok(Some(copy_text(self.alloc, reply)?));
        }
        self.judge_cert(text, cert)?;
        if self.is_next(cert)? {
            Ok(None)
        } else {
            Err(Refused(Status::WrongNumber))
        }
    }

    /// Whether it is the user's next operation, where none of the user's is pending, and names the user's latest
    /// structure.
    fn is_next(&self, cert: &Cert<A>) -> Result<bool, Memory> {
        let latest = self.listed.latest_of(cert.user());
        let number = match latest {
            Some(latest) => latest.value.plan().number().get(),
            None => 0,
        };
        if self.pending.has(cert.user()) || cert.number().get() - 1 != number {
            return Ok(false);
        }
        let named = digest_of_last(self.alloc, latest)?;
        Ok(cert.last().as_bytes() == named.as_bytes())
    }

    /// Whether a structure is to be committed: not where it is its user's latest one already.
    fn judge_commit(&self, text: &[u8], found: &Signed<Structure<A>>) -> Result<bool, Refused> {
        let plan = found.value.plan();
        self.judge_structure(text, plan)?;
        if self.is_latest(plan.user(), text)? {
            return Ok(false);
        }
        if self.pending.has_plan(self.alloc, plan)? {
            Ok(true)
        } else {
            Err(Refused(Status::NotPending))
        }
    }

    /// Whether this is the text of the user's latest structure.
    fn is_latest(&self, user: User, text: &[u8]) -> Result<bool, Memory> {
        match self.listed.latest_of(user) {
            Some(latest) => spells(self.alloc, text, latest),
            None => Ok(false),
        }
    }

    /// The plan of the next operation, whose certificate has this digest: as the honest server makes it, over these
    /// lists.
    fn plan(&self, cert: &Cert<A>, certificate: Digest) -> Result<Plan<A>, Refused> {
        let version = self.vector.version_of(Principal::from(User::superuser()));
        let groups = groups_at(self.alloc, &self.table, version, cert)?;
        let entries = self.pending.entries(self.alloc)?;
        let plan = next_plan(
            self.alloc,
            &self.vector,
            entries,
            cert.user(),
            cert.number(),
            certificate,
            &groups,
        )?;
        Ok(plan)
    }

    /// Places an operation, whose certificate the text spells: its reply.
    fn place(&mut self, text: &[u8], found: Signed<Cert<A>>) -> Result<Vec<u8, A>, Refused> {
        let plan = self.plan(&found.value, digest(unsigned(text)));
        let (found, plan) = beside(found, plan)?;
        let brought = self.brought(text, PendingItem::new(found, plan))?;
        let Brought {
            placement,
            table,
            vector,
            reply,
        } = brought;
        let placed = self.pending.place(placement);
        let ((table, vector, reply), ()) = beside((table, vector, reply), placed)?;
        put_in(&mut self.vector, vector);
        if let Some(table) = table {
            put_in(&mut self.table, table);
        }
        Ok(reply)
    }

    /// What an operation brings that is placed next.
    fn brought(&self, text: &[u8], item: PendingItem<A>) -> Result<Brought<A>, Refused> {
        let alloc = self.alloc;
        let reply = self.reply_to(&item);
        let (item, reply) = beside(item, reply)?;
        let table = table_after(alloc, &self.table, item.cert());
        let ((item, reply), table) = beside((item, reply), table)?;
        let vector = item.plan().vector().copy(alloc);
        let ((item, reply, table), vector) = beside((item, reply, table), vector)?;
        let placement = placement_of(alloc, text, item, &reply);
        let ((reply, table, vector), placement) = beside((reply, table, vector), placement)?;
        Ok(Brought {
            placement,
            table,
            vector,
            reply,
        })
    }

    /// The text of the reply to an operation that is placed next. No list is longer than a reply's: each user has at
    /// most one structure and one operation in them.
    fn reply_to(&self, item: &PendingItem<A>) -> Result<Vec<u8, A>, Refused> {
        let (structures, others) = (self.listed.latest(), self.pending.as_slice());
        if structures.len() > MOST_ROWS || others.len() >= MOST_ROWS {
            return Err(Refused(Status::TooLarge));
        }
        let text = Reply::text_of(self.alloc, structures, others, item)?;
        Ok(text)
    }

    /// The reply with the user's structure of this number in the place of its own one.
    fn roll_back(&self, reply: Vec<u8, A>, user: User, number: u64) -> Result<Vec<u8, A>, Memory> {
        match self.listed.structure_of(user, number) {
            Some(old) => with_structure(self.alloc, reply, old),
            None => Ok(reply),
        }
    }
}

/// The operation with copies of its certificate and its reply.
fn placement_of<A: Allocator + Copy>(
    alloc: A,
    cert: &[u8],
    item: PendingItem<A>,
    reply: &[u8],
) -> Result<Placement<A>, Memory> {
    let (item, cert) = beside(item, copy_text(alloc, cert))?;
    let ((item, cert), reply) = beside((item, cert), copy_text(alloc, reply))?;
    Ok(Placement::new(cert, item, reply))
}
