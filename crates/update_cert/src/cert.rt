//! Certificates.

ghost use Rattle.std.specs.Prelude.{◌≡◌, ◌≤◌, IfOk, OnErr, OnOk, vec_len, length};
ghost use Rattle.std.specs.List.{All};
ghost use Rattle.layout.specs.Format.{BeginsWith, Reads};
ghost use Rattle.update_cert.specs.Change.{change};
ghost use Rattle.update_cert.specs.Cert.{cert, digest_of};

use crate::change::{CHANGE_SIZE, Change, Changes};
use layout::{
    Digest, Memory, ReadError, Reader, Text, User, Version, Writer, digest, read_rows, write_rows,
};
use std::alloc::Allocator;
use std::marker::Model;

/// How many changes a certificate has at most.
pub const MOST_CHANGES: usize = 16;

/// How many bytes the text of a certificate has at most: the tag, the user, the number, the digest, and the changes.
pub const CERT_SIZE: usize = 4 + 1 + 4 + 32 + (1 + MOST_CHANGES * CHANGE_SIZE);

/// What a user signs to have an operation placed: at most 16 changes, after the user's last structure.
#[derive(Drop)]
pub struct Cert<A: Allocator> {
    user: User,
    number: Version,
    last: Digest,
    changes: Vec<Change<A>, A>,
}

impl<A: Allocator> Model for Cert<A> {
    ghost use Rattle.update_cert.specs.Cert.{Cert, cert};

    ghost Value = { Cert };

    ghost view = { λ c. record { user = c.user; number = c.number; last = c.last; changes = c.changes.items } };

    ghost invariant = { λ c. cert.Fits
        (record { user = c.user; number = c.number; last = c.last; changes = c.changes.items }) };
}

/// Writes the fields of a certificate of these parts.
fn write_cert<A: Allocator + Copy>(
    writer: &mut Writer<A>,
    user: User,
    number: Version,
    last: &Digest,
    changes: &[Change<A>],
) -> Result<(), Memory>
    requires few { length changes.now ≤ MOST_CHANGES }
    ensures ok { OnOk result (writer.new
        ≡ cert.onto writer.old (record { user = user; number = number; last = last.now; changes = changes.now })) }
    ensures front { OnErr result (BeginsWith writer.new writer.old) }
{
    writer.tag(b"SUC1")?;
    writer.user(user)?;
    writer.version(number)?;
    writer.digest(last)?;
    writer.u8(changes.len() as u8)?;
    write_rows(writer, &Changes, changes)
}

impl<A: Allocator + Copy> Text<A> for Cert<A> {
    ghost use Rattle.update_cert.specs.Cert.{cert};
    ghost use Rattle.update_cert.specs.CertLaws.{lawful_cert};

    ghost format = { cert };

    fn read_fields(alloc: A, reader: &mut Reader<'_>) -> Result<Cert<A>, ReadError> {
        reader.tag(b"SUC1")?;
        let user = reader.user()?;
        let number = reader.version()?;
        let last = reader.digest()?;
        let count = reader.u8_in(0, MOST_CHANGES as u8)?;
        let changes = read_rows(alloc, reader, &Changes, usize::from(count))?;
        Ok(Cert {
            user,
            number,
            last,
            changes,
        })
    }

    fn write_fields(&self, writer: &mut Writer<A>) -> Result<(), Memory> {
        write_cert(writer, self.user, self.number, &self.last, &self.changes)
    }

    ghost lawful = { lawful_cert };
}

/// That each change fits its row, as its own contract says.
fn changes_fit<A: Allocator>(changes: &[Change<A>])
    ensures { All change.Fits changes.now }
{
    for change in changes {
        let _principal = change.principal();
    }
}

/// The text of the certificate of these parts, whose changes are only borrowed.
pub fn cert_text<A: Allocator + Copy>(
    alloc: A,
    user: User,
    number: Version,
    last: Digest,
    changes: &[Change<A>],
) -> Result<Vec<u8, A>, Memory>
    requires few { length changes.now ≤ MOST_CHANGES }
    ensures text { IfOk result (λ text. text.items
        ≡ cert.spell (record { user = user; number = number; last = last; changes = changes.now })) }
    // Their own contracts say that the parts fit, so that the text is read again.
    ensures fits { cert.Fits (record { user = user; number = number; last = last; changes = changes.now }) }
{
    let _range = (user.get(), number.get());
    let _last = last.as_bytes();
    changes_fit(changes);
    let mut writer = Writer::new(alloc);
    write_cert(&mut writer, user, number, &last, changes)?;
    Ok(writer.finish())
}

impl<A: Allocator> Cert<A> {
    /// The certificate of these parts, whose own contracts say that they fit.
    pub fn new(user: User, number: Version, last: Digest, changes: Vec<Change<A>, A>) -> Cert<A>
        requires few { vec_len changes ≤ MOST_CHANGES }
        ensures { result ≡ record { user = user; number = number; last = last; changes = changes.items } }
    {
        let _range = (user.get(), number.get());
        let _last = last.as_bytes();
        changes_fit(&changes);
        Cert {
            user,
            number,
            last,
            changes,
        }
    }

    /// Whose operation it is.
    pub fn user(&self) -> User
        ensures same { result ≡ self.now.user }
        ensures fits { cert.Fits self.now }
    {
        self.user
    }

    /// The number of the operation among the user's own.
    pub fn number(&self) -> Version
        ensures { result ≡ self.now.number }
    {
        self.number
    }

    /// The digest of the structure that the user signed last: zeros at number 1.
    pub fn last(&self) -> Digest
        ensures { result ≡ self.now.last }
    {
        self.last
    }

    /// What the operation does, in turn: at most 16 changes.
    pub fn changes(&self) -> &[Change<A>]
        ensures { result.now ≡ self.now.changes }
    {
        &self.changes
    }
}

impl<A: Allocator + Copy> Cert<A> {
    /// The digest of its text, without signature.
    pub fn digest(&self, alloc: A) -> Result<Digest, Memory>
        ensures { IfOk result (λ digest. digest ≡ digest_of self.now) }
    {
        let text = self.text(alloc)?;
        Ok(digest(&text))
    }
}
