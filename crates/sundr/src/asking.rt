//! A session with the server, over the files of a user's folder, in which commands are carried out.

use crate::OwnClient;
use crate::foreseeing::{Foreseeing, places_in};
use crate::reaching::{Contact, Reach, Server, Stream};
use commands::{Answer, Command, Refusal};
use file_session::Session;
use kept_blocks::{Keeping, KeptBlocks};
use layout::let_go;
use leaf_ledger::FileDevice;
use std::alloc::Global;
use std::io;
use std::net::{Net, TcpStream};
use transport::Connecting;

/// What carries commands out, whatever stands behind it.
pub(crate) trait Asks {
    /// Carries a command out with a look of its own, and tells which operation was finished before it.
    fn run(&mut self, command: &Command<'_>) -> Answer<Global>;

    /// Tells what a command shows in the view of the last look.
    fn show(&mut self, command: &Command<'_>) -> Answer<Global>;

    /// Gives what a name stands for another name in its place, and tells which operation was finished before.
    fn rename(&mut self, path: &str, to: &str) -> Answer<Global>;
}

/// What carries the requests of a session to the server at an address, unless they ask for blocks that are kept, and
/// foresees some.
type OwnTransport<'a, H> = Foreseeing<
    'a,
    Keeping<Connecting<Server<'a, H>, Stream<'a>, Global>, Global>,
>;

/// The session of a client with the server at an address, and what is known of that meanwhile.
pub(crate) struct Asking<'a, H: Net<Stream = TcpStream>> {
    rt: &'a HostRuntime,
    contact: &'a Contact<'a>,
    session: Session<FileDevice<Global>, FileDevice<Global>, OwnTransport<'a, H>, Global>,
}

/// An answer as it is told: where the server couldn't be reached for want of memory, that.
fn told_of(answer: Answer<Global>, reach: Reach) -> Answer<Global> {
    match answer {
        Answer::Refused(Refusal::Cut) if reach.lacks_memory() => Answer::Refused(Refusal::Memory),
        other => other,
    }
}

impl<'a, H: Net<Stream = TcpStream>> Asking<'a, H> {
    /// That of a client, which isn't connected and has these blocks.
    pub(crate) fn new(
        rt: &'a HostRuntime,
        server: Server<'a, H>,
        client: OwnClient,
        kept: KeptBlocks<Global>,
    ) -> Asking<'a, H> {
        let contact = server.contact;
        let connecting = Connecting::new(rt.alloc(), server);
        let transport = Foreseeing::new(rt.alloc(), Keeping::new(connecting, kept), contact);
        Asking {
            rt,
            contact,
            session: Session::new(rt.alloc(), client, transport),
        }
    }

    /// Its client, and the blocks that it has.
    pub(crate) fn into_parts(self) -> (OwnClient, KeptBlocks<Global>) {
        let Asking {
            rt: _,
            contact: _,
            session,
        } = self;
        let (client, transport) = session.close();
        let (connecting, kept) = transport.into_transport().into_parts();
        let_go(connecting);
        (client, kept)
    }

    /// The same client, that isn't connected.
    pub(crate) fn again(self, server: Server<'a, H>) -> Asking<'a, H> {
        let rt = self.rt;
        let (client, kept) = self.into_parts();
        Asking::new(rt, server, client, kept)
    }

    /// Tells which operation was finished first, if one was, and the numbers of its changes that had no effect.
    fn tell_resumed(&self) -> io::Result<()> {
        let rt = self.rt;
        let Some(resumed) = self.session.resumed() else {
            return Ok(());
        };
        eprint!(rt; "resumed {}", resumed.number())?;
        if !resumed.lost().is_empty() {
            eprint!(rt; " lost")?;
        }
        for number in resumed.lost() {
            eprint!(rt; " {number}")?;
        }
        eprintln!(rt;)
    }

    /// What came of the look of a command. Where the entries of a directory are wanted with what stands at each, they were
    /// shown without that, and it is told now in the same view. So it is known about which places it is asked next; where
    /// memory for that is lacking, it isn't.
    fn detailed(&mut self, command: &Command<'_>, looked: Answer<Global>) -> Answer<Global> {
        let Command::Details(path) = command else {
            return looked;
        };
        match looked {
            Answer::Listing(entries) => {
                if let Ok(places) = places_in(self.rt.alloc(), &entries) {
                    self.contact.next.set(Some(places));
                }
                let_go(entries);
                self.session.tell(&Command::Details(path))
            }
            other => other,
        }
    }
}

impl<H: Net<Stream = TcpStream>> Asks for Asking<'_, H> {
    fn run(&mut self, command: &Command<'_>) -> Answer<Global> {
        self.contact.pace.begin();
        let looked = match command {
            Command::Details(path) => self.session.run(&Command::Ls(path)),
            _ => self.session.run(command),
        };
        let _ = self.tell_resumed();
        let answer = self.detailed(command, looked);
        told_of(answer, self.contact.reach.get())
    }

    fn show(&mut self, command: &Command<'_>) -> Answer<Global> {
        self.contact.pace.begin();
        let looked = match command {
            Command::Details(path) => self.session.tell(&Command::Ls(path)),
            _ => self.session.tell(command),
        };
        let answer = self.detailed(command, looked);
        told_of(answer, self.contact.reach.get())
    }

    fn rename(&mut self, path: &str, to: &str) -> Answer<Global> {
        self.contact.pace.begin();
        let answer = self.session.rename(path, to);
        let _ = self.tell_resumed();
        told_of(answer, self.contact.reach.get())
    }
}
