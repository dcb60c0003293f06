//! The operations that are pending at the server, each with the reply that was made for it.

ghost use Rattle.std.specs.Prelude.{◌<◌, IfSome, vec_len};

use crate::entries::entries_of;
use crate::texts::spells;
use layout::{Memory, ReadError, Text, User, beside, put_in};
use pending_list::{HasItem, PendingItem, Signed};
use std::alloc::Allocator;
use update_cert::Cert;
use version_order::{Entries, Entry, Plan};

/// An operation that is pending.
#[derive(Drop)]
pub(crate) struct Placement<A: Allocator> {
    /// The text of its signed certificate.
    cert: Vec<u8, A>,
    item: PendingItem<A>,
    /// The text of the reply that was made when it was placed.
    reply: Vec<u8, A>,
}

impl<A: Allocator> HasItem<A> for Placement<A> {
    ghost item = { λ w. w.item };

    fn item(&self) -> &PendingItem<A> {
        &self.item
    }
}

/// The certificate that a text spells with its signature: one that was placed, so that nothing but want of memory keeps
/// it from being read again.
fn cert_again<A: Allocator + Copy>(alloc: A, text: &[u8]) -> Result<Signed<Cert<A>>, Memory> {
    Signed::<Cert<A>>::read(alloc, text).map_err(|_| Memory)
}

/// The plan with one entry more: in the place of its user's, if there is one.
fn with_entry<A: Allocator + Copy>(
    alloc: A,
    plan: &Plan<A>,
    entry: Entry,
) -> Result<Plan<A>, Memory> {
    let mut rows = Vec::from_slice(alloc, plan.entries().as_slice())?;
    rows.push(entry)?;
    let entries = entries_of(alloc, &rows)?;
    let (entries, vector) = beside(entries, plan.vector().copy(alloc))?;
    Ok(Plan::new(
        plan.user(),
        plan.number(),
        plan.certificate(),
        vector,
        entries,
    ))
}

impl<A: Allocator + Copy> Placement<A> {
    pub(crate) fn new(cert: Vec<u8, A>, item: PendingItem<A>, reply: Vec<u8, A>) -> Placement<A> {
        Placement { cert, item, reply }
    }

    /// Whose operation it is.
    fn user(&self) -> User {
        self.item.plan().user()
    }

    /// The item of this plan, which has the same certificate.
    fn item_of(&self, alloc: A, plan: Plan<A>) -> Result<PendingItem<A>, Memory> {
        let (plan, cert) = beside(plan, cert_again(alloc, &self.cert))?;
        Ok(PendingItem::new(cert, plan))
    }

    /// Gives its plan one entry more. The reply stays.
    fn add_entry(&mut self, alloc: A, entry: Entry) -> Result<(), Memory> {
        let plan = with_entry(alloc, self.item.plan(), entry)?;
        let item = self.item_of(alloc, plan)?;
        put_in(&mut self.item, item);
        Ok(())
    }

    /// The same operation.
    fn copy(&self, alloc: A) -> Result<Placement<A>, Memory> {
        let plan = self.item.plan().copy(alloc)?;
        let item = self.item_of(alloc, plan)?;
        let (item, cert) = beside(item, copy_text(alloc, &self.cert))?;
        let ((item, cert), reply) = beside((item, cert), copy_text(alloc, &self.reply))?;
        Ok(Placement { cert, item, reply })
    }
}

/// The same text.
pub(crate) fn copy_text<A: Allocator>(alloc: A, text: &[u8]) -> Result<Vec<u8, A>, Memory> {
    let copy = Vec::from_slice(alloc, text)?;
    Ok(copy)
}

/// The operations that are pending, in the order of their placing.
#[derive(Drop)]
pub(crate) struct Pending<A: Allocator> {
    list: Vec<Placement<A>, A>,
}

impl<A: Allocator + Copy> Pending<A> {
    /// None.
    pub(crate) fn new(alloc: A) -> Pending<A> {
        Pending {
            list: Vec::new(alloc),
        }
    }

    /// The operations, in the order of their placing.
    pub(crate) fn as_slice(&self) -> &[Placement<A>] {
        &self.list
    }

    /// The operation of a user, if one is pending.
    fn of(&self, user: User) -> Option<&Placement<A>> {
        self.list.iter().find(|placement| placement.user() == user)
    }

    /// Whether an operation of the user is pending.
    pub(crate) fn has(&self, user: User) -> bool {
        self.of(user).is_some()
    }

    /// The reply that was made for the certificate of this text, if that is pending.
    pub(crate) fn reply_to(&self, text: &[u8]) -> Option<&[u8]> {
        for placement in &self.list {
            if placement.cert.as_slice() == text {
                return Some(&placement.reply);
            }
        }
        None
    }

    /// Whether this plan is that of its user's pending operation.
    pub(crate) fn has_plan(&self, alloc: A, plan: &Plan<A>) -> Result<bool, Memory> {
        match self.of(plan.user()) {
            Some(placement) => {
                let text = plan.text(alloc)?;
                spells(alloc, &text, placement.item.plan())
            }
            None => Ok(false),
        }
    }

    /// An entry for each of them.
    pub(crate) fn entries(&self, alloc: A) -> Result<Entries<A>, Memory> {
        let mut rows = Vec::new(alloc);
        for placement in &self.list {
            rows.push(placement.item.plan().entry(alloc)?)?;
        }
        entries_of(alloc, &rows)
    }

    /// Places an operation after the others.
    pub(crate) fn place(&mut self, placement: Placement<A>) -> Result<(), Memory> {
        self.list.push(placement)?;
        Ok(())
    }

    /// Takes the operation of a user out.
    pub(crate) fn take_out(&mut self, user: User) {
        self.list.retain(|placement| placement.user() != user);
    }

    /// Where the operation of a user stands, if one is pending.
    fn place_of(&self, user: User) -> Option<usize>
        ensures { IfSome result (λ place. place < vec_len self.now.list) }
    {
        for place in 0..self.list.len() {
            if self.list[place].user() == user {
                return Some(place);
            }
        }
        None
    }

    /// Gives the plan of a user's operation one entry more: whether one is pending.
    pub(crate) fn add_entry(&mut self, alloc: A, user: User, entry: Entry) -> Result<bool, Memory> {
        match self.place_of(user) {
            Some(place) => {
                self.list[place].add_entry(alloc, entry)?;
                Ok(true)
            }
            None => Ok(false),
        }
    }

    /// The same operations.
    pub(crate) fn copy(&self, alloc: A) -> Result<Pending<A>, Memory> {
        let mut list = Vec::new(alloc);
        for placement in &self.list {
            list.push(placement.copy(alloc)?)?;
        }
        Ok(Pending { list })
    }
}
