//! The clients of a script, its servers, and the blocks that are stored.

use crate::blocks::StoredBlocks;
use crate::command::Command;
use crate::laying::{NamedKeys, Work, have_keys, work_of};
use crate::operation::{begin, commit, restarted, show, update};
use crate::outcome::Outcome;
use crate::players::Players;
use crate::server::Servers;
use crate::task::Task;
use crate::who::Who;
use crate::words::ServerName;
use client_verify::Phase;
use hostile_server::Edit;
use itable::LayError;
use layout::{INumber, Memory, Principal, User, beside};
use std::alloc::Allocator;
use std::sync::Wait;

/// The clients that were named so far, the servers, and the stored blocks, which all of them share.
#[derive(Drop)]
pub(crate) struct World<'a, R: Wait, A: Allocator + Copy> {
    alloc: A,
    players: Players<A>,
    servers: Servers<A>,
    blocks: StoredBlocks<'a, R, A>,
}

impl<'a, R: Wait, A: Allocator + Copy> World<'a, R, A> {
    /// A server at the beginning, and client 0. The cache of each client may have so many blocks.
    pub(crate) fn new(rt: &'a R, alloc: A, capacity: usize) -> Result<World<'a, R, A>, Memory> {
        let blocks = StoredBlocks::new(rt, alloc)?;
        let (blocks, players) = beside(blocks, Players::new(alloc, capacity))?;
        let servers = Servers::new(alloc, players.pinned());
        let ((blocks, players), servers) = beside((blocks, players), servers)?;
        Ok(World {
            alloc,
            players,
            servers,
            blocks,
        })
    }

    /// Users' own clients have the keys that an operation names.
    fn gain(&mut self, keys: NamedKeys<A>) -> Result<(), Memory> {
        for (user, key) in keys {
            self.players.gain(user, key)?;
        }
        Ok(())
    }

    /// Lays out what the tasks name, and declares the operation: only where the client has none is anybody named.
    fn begin(&mut self, who: Who, tasks: Vec<Task<A>, A>) -> Result<Outcome<A>, Memory> {
        let (named, again) = (who, who);
        let Some(place) = self.players.place_of(named)? else {
            return Ok(Outcome::Error);
        };
        if self.players.list[place].client.phase() != Phase::Idle {
            return Ok(Outcome::Busy(who));
        }
        if !have_keys(&mut self.players, &tasks)? {
            return Ok(Outcome::Error);
        }
        let work = match work_of(self.alloc, &mut self.players, tasks) {
            Ok(work) => work,
            Err(LayError::TooLarge) => return Ok(Outcome::Error),
            Err(LayError::Memory) => return Err(Memory),
        };
        let Work {
            changes,
            laid,
            keys,
        } = work;
        self.gain(keys)?;
        let Some(place) = self.players.place_of(again)? else {
            return Ok(Outcome::Error);
        };
        let player = &mut self.players.list[place];
        begin(self.alloc, &self.blocks, player, &changes, &laid)
    }

    /// Sends the client's certificate to the server, and hands in its reply after this edit.
    fn update(
        &mut self,
        who: Who,
        server: ServerName,
        edit: Option<Edit>,
    ) -> Result<Outcome<A>, Memory> {
        let Some(at) = self.servers.place_of(server) else {
            return Ok(Outcome::Error);
        };
        let Some(place) = self.players.place_of(who)? else {
            return Ok(Outcome::Error);
        };
        let player = &mut self.players.list[place];
        let server = &mut self.servers.list[at].server;
        update(self.alloc, server, edit, &self.blocks, player)
    }

    /// Sends the client's structure to the server.
    fn commit(&mut self, who: Who, server: ServerName) -> Result<Outcome<A>, Memory> {
        let Some(at) = self.servers.place_of(server) else {
            return Ok(Outcome::Error);
        };
        let Some(place) = self.players.place_of(who)? else {
            return Ok(Outcome::Error);
        };
        let player = &mut self.players.list[place];
        commit(self.alloc, &mut self.servers.list[at].server, player)
    }

    /// Crashes the client, and opens it again.
    fn restart(&mut self, who: Who) -> Result<Outcome<A>, Memory> {
        let named = who;
        Ok(match self.players.restart(named)? {
            Some(phase) => restarted(who, phase),
            None => Outcome::Error,
        })
    }

    /// What stands at an i-number in the client's view.
    fn show(
        &mut self,
        who: Who,
        principal: Principal,
        i_number: INumber,
    ) -> Result<Outcome<A>, Memory> {
        let Some(place) = self.players.place_of(who)? else {
            return Ok(Outcome::Error);
        };
        let player = &mut self.players.list[place];
        show(&self.blocks, player, principal, i_number)
    }

    /// Opens a second client with the user's key.
    fn steal(&mut self, user: User) -> Result<Outcome<A>, Memory> {
        let is_stolen = self.players.steal(user)?;
        Ok(if is_stolen {
            Outcome::Stolen
        } else {
            Outcome::Error
        })
    }

    /// Makes the second server a copy of the first.
    fn fork(&mut self, from: ServerName, to: ServerName) -> Result<Outcome<A>, Memory> {
        let is_forked = self.servers.fork(from, to)?;
        Ok(if is_forked {
            Outcome::Forked
        } else {
            Outcome::Error
        })
    }

    /// Has the server invent an entry of another's operation in the plan of what the user has pending.
    fn invent(
        &mut self,
        server: ServerName,
        user: User,
        other: User,
    ) -> Result<Outcome<A>, Memory> {
        let Some(at) = self.servers.place_of(server) else {
            return Ok(Outcome::Error);
        };
        let is_invented = self.servers.list[at].server.invent(user, other)?;
        Ok(if is_invented {
            Outcome::Invented
        } else {
            Outcome::Error
        })
    }

    /// Has the server list what the user signed last.
    fn force(&mut self, server: ServerName, user: User) -> Result<Outcome<A>, Memory> {
        let Some(at) = self.servers.place_of(server) else {
            return Ok(Outcome::Error);
        };
        let last = self.players.last_signed(user);
        let is_forced = self.servers.list[at].server.force(last)?;
        Ok(if is_forced {
            Outcome::Forced
        } else {
            Outcome::Error
        })
    }

    /// Carries out a command.
    pub(crate) fn run(&mut self, command: Command<A>) -> Result<Outcome<A>, Memory> {
        match command {
            Command::Begin(who, tasks) => self.begin(who, tasks),
            Command::Update(who, server, edit) => self.update(who, server, edit),
            Command::Commit(who, server) => self.commit(who, server),
            Command::Restart(who) => self.restart(who),
            Command::Show(who, principal, i_number) => self.show(who, principal, i_number),
            Command::Steal(user) => self.steal(user),
            Command::Fork(from, to) => self.fork(from, to),
            Command::Invent(server, user, other) => self.invent(server, user, other),
            Command::Force(server, user) => self.force(server, user),
        }
    }
}
