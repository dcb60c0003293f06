//! The clients of all users, step by step.

ghost use Rattle.std.specs.Prelude.{◌≡◌, ◌≢◌, ℕ, IfOk, OnOk, length, slice_index_or};
ghost use Rattle.std.specs.Option.{option_copied};
ghost use Rattle.client_runs.specs.Runs.{owner, pinned as pinned_key};
ghost use Rattle.client_runs.specs.Carried.{AreCarriedOut, ComesOf, script_keys};
ghost use Rattle.client_runs.specs.Clients.{certificate_of, client_at, structure_of};
ghost use Rattle.client_steps.specs.Steps.{first};

use crate::laws::each_is_used_once;
use crate::slot::{Orders, Slot, certificate, key_of, step, structure};
use crate::world::{Act, Answer, World, WorldStep};
use layout::{Memory, User, put_in};
use lms_sign::PublicKey;
use std::alloc::Allocator;
use std::cell::Cell;
use std::marker::Model;
use std::mem;
use std::rc::Rc;

/// The clients of all users, each with its keys of bytes of the user's number, on devices in memory.
#[derive(Drop)]
pub struct Clients<A: Allocator + Copy> {
    alloc: A,
    pinned: PublicKey,
    orders: Orders<A>,
    slots: Vec<Slot<A>, A>,
}

impl<A: Allocator + Copy> Model for Clients<A> {
    ghost use Rattle.std.specs.Prelude.{List};
    ghost use Rattle.client_steps.specs.Steps.{Client};
    ghost use Rattle.client_runs.specs.Slots.{AreReady, clients_in};

    ghost Value = { List Client };

    ghost view = { λ c. clients_in c.slots.items };

    ghost invariant = { λ c. AreReady c.pinned c.slots.items };
}

/// A table of clients that were never named.
fn unmade<A: Allocator + Copy>(alloc: A) -> Result<Vec<Slot<A>, A>, Memory>
    ensures size { IfOk result (λ slots. length slots.items ≡ 64) }
    ensures none { IfOk result (λ slots. (u : ℕ) → slice_index_or slots.items u Slot.Unmade ≡ Slot.Unmade) }
{
    let mut slots = Vec::new(alloc);
    for _ in 0..64u8 {
        slots.push(Slot::Unmade)?;
    }
    Ok(slots)
}

impl<A: Allocator + Copy> Clients<A> {
    /// Before the first step: nothing stands on any device.
    pub fn new(alloc: A) -> Result<Clients<A>, Memory>
        ensures { IfOk result (λ clients. (u : ℕ) → client_at clients u ≡ first) }
    {
        let pinned = key_of(alloc, User::superuser(), 0)?.public();
        let orders = Orders {
            ledgers: Rc::new(alloc, Cell::new(None))?,
            journal: Rc::new(alloc, Cell::new(None))?,
        };
        Ok(Clients {
            alloc,
            pinned,
            orders,
            slots: unmade(alloc)?,
        })
    }

    /// User 0's public key, which each of them knows.
    pub fn pinned(&self) -> PublicKey
        ensures { result ≡ pinned_key script_keys }
    {
        self.pinned
    }

    /// The signed certificate that a user's client has declared, if it sends one.
    pub fn certificate(&self, user: User) -> Option<&[u8]>
        ensures { option_copied result ≡ certificate_of (client_at self.now user) }
    {
        certificate(&self.slots[user.get() as usize])
    }

    /// The structure that a user's client has signed, if it sends one.
    pub fn structure(&self, user: User) -> Option<&[u8]>
        ensures { option_copied result ≡ structure_of (client_at self.now user) }
    {
        structure(&self.slots[user.get() as usize])
    }

    /// Has a user's client do something. Of the calls of its ledgers' devices in this step one fails after so many, if
    /// it is to; and of those of its journal's. After want of memory that client is lost.
    pub fn carry_out(
        &mut self,
        user: User,
        act: &Act<A>,
        ledger_fails: Option<u64>,
        journal_fails: Option<u64>,
    ) -> Result<Answer<A>, Memory>
        ensures step { IfOk result (λ answer. ComesOf (owner script_keys user) (client_at self.old user) act.now answer
            (client_at self.new user)) }
        // The others are as before.
        ensures others { OnOk result ((u : ℕ) → u ≢ user → client_at self.new u ≡ client_at self.old u) }
    {
        self.orders.ledgers.set(ledger_fails);
        self.orders.journal.set(journal_fails);
        let place = user.get() as usize;
        let slot = mem::replace(&mut self.slots[place], Slot::Unmade);
        let (slot, answer) = step(self.alloc, user, self.pinned, &self.orders, slot, act)?;
        put_in(&mut self.slots[place], slot);
        Ok(answer)
    }
}

/// Carries out steps of users' clients, one after another.
///
/// Each user's client has its keys of bytes of the user's number, one at first; it stands on devices in memory that
/// hold nothing at first, and knows user 0's public key. A step that its client can't take, as it is then, is not
/// taken.
pub fn run<A: Allocator + Copy>(alloc: A, steps: &[WorldStep<A>]) -> Result<World<A>, Memory>
    ensures { IfOk result (λ world. AreCarriedOut steps.now world.answers.items) }
{
    each_is_used_once();
    let mut clients = Clients::new(alloc)?;
    let mut answers = Vec::new(alloc);
    for todo in steps {
        let answer = clients.carry_out(
            todo.user,
            &todo.act,
            todo.ledger_fails,
            todo.journal_fails,
        )?;
        answers.push(answer)?;
    }
    Ok(World { answers })
}
