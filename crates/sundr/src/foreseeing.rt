//! A transport that foresees which blocks a listing with kinds and sizes asks for: of each entry the i-node. They go ahead
//! of replies, so that a directory takes a few turns of the line, and not one an entry. It is a hint: no answer rests on
//! it, and where memory for it is lacking it is gone without.

ghost use Rattle.transport.specs.Asked.{came};

use crate::reaching::Contact;
use directory::{Directory, Target as Place};
use itable::{Chunk, ChunkNumber, Root};
use layout::{Digest, INumber, Principal, Text, put_in};
use std::alloc::{AllocError, Global};
use transport::{Ahead, Request, Transport, TransportError};
use wire::{RequestKind, Status, reply_of};

/// How many chunks of i-tables are remembered at most.
const MOST_CHUNKS: usize = 128;

/// How many blocks are foreseen at most.
const MOST_AHEAD: usize = 256;

/// A chunk of an i-table, and its digest.
#[derive(Drop)]
struct Named {
    digest: Digest,
    chunk: Chunk<Global>,
}

/// What is known of what stands at a place.
#[derive(Clone, Copy)]
enum Known {
    /// The digest of its i-node.
    Inode(Digest),
    /// That nothing stands there.
    Nothing,
    /// That the chunk of this digest tells of it.
    Chunk(Digest),
    /// Nothing is known.
    Unknown,
}

/// What i-tables tell by the texts that came by.
#[derive(Drop)]
struct Tables {
    alloc: Global,
    /// Of each principal the last one.
    roots: Vec<Root<Global>>,
    /// The last ones, the oldest first.
    chunks: Vec<Named>,
}

impl Tables {
    /// At which place the root of a principal is remembered, if it is.
    fn root_at(&self, principal: Principal) -> Option<usize> {
        for (at, root) in self.roots.iter().enumerate() {
            if root.principal() == principal {
                return Some(at);
            }
        }
        None
    }

    /// Remembers a root in the place of the one before of its principal.
    fn keep_root(&mut self, root: Root<Global>) -> Result<(), AllocError> {
        let Some(at) = self.root_at(root.principal()) else {
            self.roots.push(root)?;
            return Ok(());
        };
        if let Some(before) = self.roots.get_mut(at) {
            put_in(before, root);
        }
        Ok(())
    }

    /// Remembers a chunk, where there is no room for it in the place of the oldest.
    fn keep_chunk(&mut self, named: Named) -> Result<(), AllocError> {
        if self.chunks.len() >= MOST_CHUNKS {
            let _oldest = self.chunks.remove(0);
        }
        self.chunks.push(named)?;
        Ok(())
    }

    /// A text came by: it may be of an i-table.
    fn hear(&mut self, digest: Digest, text: &[u8]) -> Result<(), AllocError> {
        if let Ok(root) = Root::read(self.alloc, text) {
            return self.keep_root(root);
        }
        match Chunk::read(self.alloc, text) {
            Ok(chunk) => self.keep_chunk(Named { digest, chunk }),
            Err(_) => Ok(()),
        }
    }

    /// The chunk of a digest, if it is remembered.
    fn chunk(&self, digest: Digest) -> Option<&Chunk<Global>> {
        for named in &self.chunks {
            if named.digest == digest {
                return Some(&named.chunk);
            }
        }
        None
    }

    /// What is known of what stands at a place.
    fn known(&self, place: Place) -> Known {
        let Some(at) = self.root_at(place.principal) else {
            return Known::Unknown;
        };
        let Some(digest) = chunk_of(self.roots.get(at), ChunkNumber::of(place.i_number)) else {
            return Known::Nothing;
        };
        match self.chunk(digest) {
            Some(chunk) => inode_in(chunk, place.i_number),
            None => Known::Chunk(digest),
        }
    }
}

/// The digest of a chunk of a principal's table, if its root lists one.
fn chunk_of(root: Option<&Root<Global>>, number: ChunkNumber) -> Option<Digest> {
    for listed in root?.chunks() {
        if listed.number == number {
            return Some(listed.digest);
        }
    }
    None
}

/// What a chunk tells of what stands at an i-number of it.
fn inode_in(chunk: &Chunk<Global>, i_number: INumber) -> Known {
    for pair in chunk.pairs() {
        if pair.i_number == i_number {
            return Known::Inode(pair.digest);
        }
    }
    Known::Nothing
}

/// The places about which it is asked in turn, and the blocks that are asked for about them.
#[derive(Drop)]
struct Course {
    places: Vec<Place>,
    /// Of so many places the blocks are foreseen.
    foreseen: usize,
    /// Each is asked for once.
    digests: Vec<Digest>,
    /// So many of the blocks were asked for, or won't be any more.
    passed: usize,
}

/// At which place a digest is among others, if it is.
fn place_of(digests: &[Digest], digest: &[u8]) -> Option<usize> {
    for (place, other) in digests.iter().enumerate() {
        if other.as_bytes().as_slice() == digest {
            return Some(place);
        }
    }
    None
}

/// Puts a digest behind others, unless it is one of them.
fn add(digests: &mut Vec<Digest>, digest: Digest) -> Result<(), AllocError> {
    if place_of(digests, digest.as_bytes()).is_none() {
        digests.push(digest)?;
    }
    Ok(())
}

impl Course {
    /// That about these places, of which no block is foreseen.
    fn new(alloc: Global, places: Vec<Place>) -> Course {
        Course {
            places,
            foreseen: 0,
            digests: Vec::new(alloc),
            passed: 0,
        }
    }

    /// Foresees blocks as far as the tables tell, at most so many as may go ahead.
    fn foresee(&mut self, tables: &Tables) -> Result<(), AllocError> {
        let Course {
            places,
            foreseen,
            digests,
            passed,
        } = self;
        for place in places.get(*foreseen..).unwrap_or_default() {
            if digests.len().saturating_sub(*passed) >= MOST_AHEAD {
                break;
            }
            match tables.known(*place) {
                Known::Inode(digest) => add(digests, digest)?,
                Known::Nothing => (),
                Known::Chunk(digest) => {
                    add(digests, digest)?;
                    break;
                }
                Known::Unknown => break,
            }
            *foreseen = foreseen.saturating_add(1);
        }
        Ok(())
    }

    /// The blocks that are likely to be asked for after this one. Where it wasn't foreseen, none: what went ahead is let
    /// go of before it is sent.
    fn after(&mut self, digest: &[u8]) -> &[Digest] {
        let left = self.digests.get(self.passed..).unwrap_or_default();
        self.passed = match place_of(left, digest) {
            Some(place) => self.passed.saturating_add(place).saturating_add(1),
            None => self.digests.len(),
        };
        self.digests.get(self.passed..).unwrap_or_default()
    }
}

/// A transport, before which it is known about which places it is asked next. Those stand in the contact with the server.
#[derive(Drop)]
pub(crate) struct Foreseeing<'a, T> {
    transport: T,
    contact: &'a Contact<'a>,
    tables: Tables,
    course: Course,
}

impl<'a, T> Foreseeing<'a, T> {
    /// This transport, before which nothing is foreseen yet.
    pub(crate) fn new(alloc: Global, transport: T, contact: &'a Contact<'a>) -> Foreseeing<'a, T> {
        Foreseeing {
            transport,
            contact,
            tables: Tables {
                alloc,
                roots: Vec::new(alloc),
                chunks: Vec::new(alloc),
            },
            course: Course::new(alloc, Vec::new(alloc)),
        }
    }

    /// The transport itself.
    pub(crate) fn into_transport(self) -> T {
        let Foreseeing { transport, .. } = self;
        transport
    }
}

/// Whether nothing is known of what comes next.
fn is_nothing(ahead: &Ahead<'_, Global>) -> bool {
    match ahead {
        Ahead::Nothing => true,
        Ahead::Gets(digests) => digests.is_empty(),
        Ahead::Puts(_) => false,
    }
}

/// The digest that 32 bytes are.
fn digest_of(bytes: &[u8]) -> Option<Digest> {
    match <[u8; 32]>::try_from(bytes) {
        Ok(bytes) => Some(Digest::from_bytes(bytes)),
        Err(_) => None,
    }
}

/// The block of which a reply tells, if it tells of one: its digest, and its text.
fn told_by<'a>(request: &'a Request<'_>, body: &'a [u8]) -> Option<(Digest, &'a [u8])> {
    let (Status::Ok, payload) = reply_of(body)? else {
        return None;
    };
    match request.kind() {
        RequestKind::Get => Some((digest_of(request.payload())?, payload)),
        RequestKind::Put => Some((digest_of(payload)?, request.payload())),
        RequestKind::Update | RequestKind::Commit | RequestKind::Sync => None,
    }
}

/// A reply came: its block may be of an i-table. That memory for it is lacking is no fault.
fn hear(tables: &mut Tables, request: &Request<'_>, body: &[u8]) {
    if let Some((digest, text)) = told_by(request, body) {
        let _ = tables.hear(digest, text);
    }
}

/// The blocks that are likely to be asked for after this one. Where it was told about which places it is asked next, these
/// are followed from now on.
fn next_blocks<'a>(
    contact: &Contact<'_>,
    tables: &Tables,
    course: &'a mut Course,
    digest: &[u8],
) -> &'a [Digest] {
    if let Some(places) = contact.next.replace(None) {
        put_in(course, Course::new(tables.alloc, places));
    }
    let _ = course.foresee(tables);
    course.after(digest)
}

impl<T: Transport<Global>> Foreseeing<'_, T> {
    /// Sends a request, and others ahead of its reply: those that are known to come next, or else those that are foreseen.
    fn send(
        &mut self,
        request: &Request<'_>,
        ahead: &Ahead<'_, Global>,
    ) -> Result<Vec<u8>, TransportError>
        ensures { T.answers self.old.transport request.now (came result) self.new.transport }
    {
        if !is_nothing(ahead) || request.kind() != RequestKind::Get {
            return self.transport.exchange_ahead(request, ahead);
        }
        let Foreseeing {
            transport,
            contact,
            tables,
            course,
        } = self;
        let next = Ahead::Gets(next_blocks(*contact, tables, course, request.payload()));
        transport.exchange_ahead(request, &next)
    }
}

impl<T: Transport<Global>> Transport<Global> for Foreseeing<'_, T> {
    ghost answers = { λ before asked result now. T.answers before.transport asked result now.transport };

    ghost fault_count = { λ f. T.fault_count f.transport };

    fn exchange(&mut self, request: &Request<'_>) -> Result<Vec<u8>, TransportError> {
        self.exchange_ahead(request, &Ahead::Nothing)
    }

    fn exchange_ahead(
        &mut self,
        request: &Request<'_>,
        ahead: &Ahead<'_, Global>,
    ) -> Result<Vec<u8>, TransportError> {
        let answer = self.send(request, ahead);
        if let Ok(body) = &answer {
            hear(&mut self.tables, request, body);
        }
        answer
    }

    fn faults(&self) -> u64 {
        self.transport.faults()
    }

    ghost later = { λ t r x u did. T.later t.transport r x u.transport did };

    ghost rose = { λ t r u did. T.rose t.transport r u.transport did };
}

/// The places for which the names of a directory stand, in their order.
pub(crate) fn places_in(
    alloc: Global,
    entries: &Directory<Global>,
) -> Result<Vec<Place>, AllocError> {
    let mut places = Vec::new(alloc);
    for entry in entries.entries() {
        places.push(entry.target())?;
    }
    Ok(places)
}
