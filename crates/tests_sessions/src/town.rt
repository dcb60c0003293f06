//! A server, and three users whose devices keep what their clients wrote. Each command is carried out by a process of
//! its own: a client that is opened over what the user's devices kept. Where it isn't opened, that is told as `sundr`
//! tells it.

use crate::line::Turn;
use crate::memory::{MemoryServer, Trouble};
use client_verify::ClientError;
use commands::{Answer, Command};
use consistency_server::{MemoryLog, Ordered};
use file_session::{Resumed, Session, refusal_of};
use layout::{User, put_in};
use leaf_ledger::MemoryDevice;
use lms_sign::PublicKey;
use std::alloc::Global;
use tests_aids::texts::{joined, key_of};
use tests_aids::{Aided, found, given};
use tests_client_aids::clients::{Kept, MemoryClient, nothing_yet, open_over, opened};
use tests_client_aids::crashes::closed;
use transport::Transport;
use wire::RequestKind;

/// A session of a user.
type MemorySession<T> = Session<MemoryDevice<Global>, MemoryDevice<Global>, T, Global>;

/// A server, and what the users 0 to 2 keep, where no process of theirs has it.
#[derive(Drop)]
pub(crate) struct Town {
    pub(crate) pinned: PublicKey,
    /// How replies come over a connection to the server, if there is one.
    pub(crate) turn: Option<Turn>,
    server: Option<MemoryServer>,
    homes: [Option<Kept>; 3],
}

/// What a process ends with.
#[derive(Drop)]
pub(crate) struct Outcome {
    /// What it prints of an operation that it finished first.
    pub(crate) resumed: Vec<u8>,
    /// What it prints of the answer.
    pub(crate) printed: Vec<u8>,
    /// Its status.
    pub(crate) status: u8,
}

/// A server at the beginning.
fn server_of(rt: &impl Aided, pinned: PublicKey) -> MemoryServer {
    let ordered = Ordered::genesis(rt.alloc(), pinned);
    let log = given(rt, MemoryLog::new(rt.alloc()), "memory");
    MemoryServer::new(rt.alloc(), ordered, log)
}

/// What a user keeps before its first process: a key, whose seed is its number.
fn home(rt: &impl Aided, user: u8) -> Kept {
    nothing_yet(rt, key_of(rt, user))
}

/// User 0 alone, before its first process.
fn town_of_one(rt: &impl Aided) -> Town {
    let zero = home(rt, 0);
    let pinned = zero.key.public();
    Town {
        pinned,
        turn: None,
        server: Some(server_of(rt, pinned)),
        homes: [Some(zero), None, None],
    }
}

/// So many users have what they keep before their first processes. The server knows user 0.
fn fill_homes(rt: &impl Aided, town: &mut Town, users: u8) {
    for user in 1..users {
        town.come_home(usize::from(user), home(rt, user));
    }
}

/// A town of so many users before their first processes, of whom the server knows user 0. Who owns it lends it to all
/// else: each step of the owner costs its proof time.
pub(crate) fn town_of(rt: &impl Aided, users: u8) -> Town {
    let mut town = town_of_one(rt);
    fill_homes(rt, &mut town, users);
    town
}

/// What is printed of an operation that was finished first.
fn resumed_text(rt: &impl Aided, resumed: Option<&Resumed<Global>>) -> Vec<u8> {
    let Some(resumed) = resumed else {
        return Vec::new(rt.alloc());
    };
    let number = resumed.number();
    let line = given(rt, format!(in rt.alloc(); "resumed {number}"), "memory");
    let mut text = joined(rt, &[line.as_bytes()]);
    if !resumed.lost().is_empty() {
        given(rt, text.extend_from_slice(b" lost"), "memory");
    }
    for change in resumed.lost() {
        let change = given(rt, format!(in rt.alloc(); " {change}"), "memory");
        given(rt, text.extend_from_slice(change.as_bytes()), "memory");
    }
    joined(rt, &[&text, b"\n"])
}

/// What is printed of an answer.
fn answer_text(rt: &impl Aided, answer: &Answer<Global>) -> Vec<u8> {
    let mut text: Vec<u8> = Vec::new(rt.alloc());
    match answer.write(&mut text) {
        Ok(()) => text,
        Err(_) => rt.fail("it isn't written"),
    }
}

/// What a session is asked for.
#[derive(Clone, Copy)]
pub(crate) enum Deed<'a> {
    /// A command.
    Run(&'a Command<'a>),
    /// A command, in the view that is there.
    Tell(&'a Command<'a>),
    /// Another name in the place of this one.
    Rename(&'a str, &'a str),
}

/// What a session ends with that is asked for this.
fn ended<T: Transport<Global>>(
    rt: &impl Aided,
    session: &mut MemorySession<T>,
    deed: Deed<'_>,
) -> Outcome {
    let answer = match deed {
        Deed::Run(command) => session.run(command),
        Deed::Tell(command) => session.tell(command),
        Deed::Rename(path, to) => session.rename(path, to),
    };
    Outcome {
        resumed: resumed_text(rt, session.resumed()),
        printed: answer_text(rt, &answer),
        status: answer.status(),
    }
}

/// A process that does this over this client and transport, and maybe a second thing: what each ends with.
fn process<T: Transport<Global>>(
    rt: &impl Aided,
    client: MemoryClient,
    transport: T,
    deed: Deed<'_>,
    second: Option<Deed<'_>>,
) -> (Outcome, Option<Outcome>, MemoryClient, T) {
    let mut session = Session::new(rt.alloc(), client, transport);
    let outcome = ended(rt, &mut session, deed);
    let other = match second {
        Some(second) => Some(ended(rt, &mut session, second)),
        None => None,
    };
    let (client, transport) = session.close();
    (outcome, other, client, transport)
}

/// What a process ends with whose client isn't opened.
fn unopened(rt: &impl Aided, error: ClientError) -> Outcome {
    let answer = Answer::Refused(refusal_of(error));
    Outcome {
        resumed: Vec::new(rt.alloc()),
        printed: answer_text(rt, &answer),
        status: answer.status(),
    }
}

impl Town {
    /// From now on this is wrong with the server.
    pub(crate) fn set(&mut self, rt: &impl Aided, trouble: Trouble) {
        found(rt, self.server.as_mut(), "the server").set(trouble);
    }

    /// Takes the server, for a process. What it was sent before counts no more.
    pub(crate) fn leave_server(&mut self, rt: &impl Aided) -> MemoryServer {
        let mut server = found(rt, self.server.take(), "the server");
        server.forget();
        server
    }

    /// Puts the server back.
    pub(crate) fn bring_back(&mut self, server: MemoryServer) {
        put_in(&mut self.server, Some(server));
    }

    /// The kinds of the requests that the server was sent since it was taken, or since this is wrong with it.
    pub(crate) fn sent(&self, rt: &impl Aided) -> &[RequestKind] {
        match &self.server {
            Some(server) => server.sent(),
            None => rt.fail("the server is away"),
        }
    }

    /// What a user keeps, while no process of its has it.
    pub(crate) fn home(&self, rt: &impl Aided, user: usize) -> &Kept {
        match self.homes.get(user) {
            Some(Some(kept)) => kept,
            _ => rt.fail("none of these users"),
        }
    }

    /// What user 0 keeps, to be changed while no process of its has it.
    pub(crate) fn home_of_0(&mut self, rt: &impl Aided) -> &mut Kept {
        let homes = &mut self.homes;
        let homes = &mut homes[..];
        match homes.first_mut() {
            Some(Some(kept)) => kept,
            _ => rt.fail("a process has it"),
        }
    }

    /// Takes what a user keeps, for a process.
    pub(crate) fn leave_home(&mut self, rt: &impl Aided, user: usize) -> Kept {
        match self.homes.get_mut(user) {
            Some(home) => found(rt, home.take(), "what the user keeps"),
            None => rt.fail("none of these users"),
        }
    }

    /// Puts back what a user keeps.
    pub(crate) fn come_home(&mut self, user: usize, kept: Kept) {
        if let Some(home) = self.homes.get_mut(user) {
            put_in(home, Some(kept));
        }
    }

    /// A process of a user does this over this transport: what it ends with.
    pub(crate) fn do_over<T: Transport<Global>>(
        &mut self,
        rt: &impl Aided,
        user: User,
        deed: Deed<'_>,
        transport: T,
    ) -> (Outcome, T) {
        let place = usize::from(user.get());
        let kept = self.leave_home(rt, place);
        match opened(rt, user, self.pinned, kept) {
            Ok(client) => {
                let (outcome, _none, client, transport) = process(
                    rt, client, transport, deed, None,
                );
                self.come_home(place, closed(rt, client));
                (outcome, transport)
            }
            Err((error, kept)) => {
                self.come_home(place, kept);
                (unopened(rt, error), transport)
            }
        }
    }

    /// A process of a user carries a command out over this transport: what it ends with.
    pub(crate) fn run_over<T: Transport<Global>>(
        &mut self,
        rt: &impl Aided,
        user: User,
        command: &Command<'_>,
        transport: T,
    ) -> (Outcome, T) {
        self.do_over(rt, user, Deed::Run(command), transport)
    }

    /// A process of user 0 carries out a command over the server in memory: what it ends with.
    pub(crate) fn run_one(&mut self, rt: &impl Aided, command: &Command<'_>) -> Outcome {
        let server = self.leave_server(rt);
        let (outcome, server) = self.run_over(rt, User::superuser(), command, server);
        self.bring_back(server);
        outcome
    }

    /// One session of user 0 does both over the server in memory: what each ends with.
    pub(crate) fn do_both(
        &mut self,
        rt: &impl Aided,
        (one, other): (Deed<'_>, Deed<'_>),
    ) -> (Outcome, Outcome) {
        let kept = self.leave_home(rt, 0);
        let server = self.leave_server(rt);
        let client = open_over(rt, User::superuser(), self.pinned, kept);
        let (first, second, client, server) = process(rt, client, server, one, Some(other));
        self.come_home(0, closed(rt, client));
        self.bring_back(server);
        (first, found(rt, second, "the second one"))
    }

    /// One session of user 0 carries out both commands over the server in memory: what each ends with.
    pub(crate) fn run_both(
        &mut self,
        rt: &impl Aided,
        (one, other): (&Command<'_>, &Command<'_>),
    ) -> (Outcome, Outcome) {
        self.do_both(rt, (Deed::Run(one), Deed::Run(other)))
    }
}
