//! Replies to updates.

ghost use Rattle.std.specs.Prelude.{◌≡◌, ◌<◌, ◌≤◌, ◌++◌, [], ◌∷◌, None, OnErr, OnOk, IfOk, map, vec_len, length};
ghost use Rattle.std.specs.List.{All};
ghost use Rattle.std.specs.Int.{w8};
ghost use Rattle.layout.specs.Format.{BeginsWith, Reads, ReadsAs, after_row, listed, rows_onto, uint_in};
ghost use Rattle.pending_list.specs.Reply.{reply, structure_rows, pending_rows, signed_structure, pending_item};

use crate::signed::{Signature, Signed};
use layout::{
    Memory, ReadError, Reader, RowFormat, Text, Writer, let_go, read_nested, read_rows,
    write_nested, write_rows,
};
use lms_sign::SIGNATURE_SIZE;
use std::alloc::Allocator;
use std::marker::Model;
use update_cert::{CERT_SIZE, Cert};
use version_order::{PLAN_SIZE, Plan, STRUCTURE_SIZE, Structure};

/// How many structures a reply has at most, and how many pending operations.
pub const MOST_ROWS: usize = 64;

/// How many bytes the text of a reply has at most: the tag; the structures and the pending operations after their
/// counts, each text after its size, and each signature.
pub const REPLY_SIZE: usize = 4
    + (1 + MOST_ROWS * ((2 + STRUCTURE_SIZE) + SIGNATURE_SIZE))
    + (1 + MOST_ROWS * ((2 + CERT_SIZE) + SIGNATURE_SIZE + (2 + PLAN_SIZE)));

/// An operation that is pending: its signed certificate, and the plan that the server made for it.
#[derive(Drop)]
pub struct PendingItem<A: Allocator> {
    cert: Signed<Cert<A>>,
    plan: Plan<A>,
}

impl<A: Allocator> Model for PendingItem<A> {
    ghost use Rattle.pending_list.specs.Reply.{PendingItem, pending_item};

    ghost Value = { PendingItem };

    ghost view = { λ i. record { cert = i.cert.value; signature = i.cert.signature; plan = i.plan } };

    ghost invariant = { λ i. pending_item.Fits
        (record { cert = i.cert.value; signature = i.cert.signature; plan = i.plan }) };
}

impl<A: Allocator> PendingItem<A> {
    ghost use Rattle.pending_list.specs.Reply.{pending_item};

    /// The operation of this certificate and plan, whose own contracts say that they fit.
    pub fn new(cert: Signed<Cert<A>>, plan: Plan<A>) -> PendingItem<A>
        ensures { result ≡ record { cert = cert.value; signature = cert.signature; plan = plan } }
    {
        let _certified = cert.value.user();
        let _signature = cert.signature.as_bytes();
        let _planned = plan.user();
        PendingItem { cert, plan }
    }

    /// That it fits its row, as its own contract says.
    fn fits(&self)
        ensures { pending_item.Fits self.now }
    {
        let _cert = self.cert();
    }

    /// The certificate.
    pub fn cert(&self) -> &Cert<A>
        ensures same { result.now ≡ self.now.cert }
        ensures fits { pending_item.Fits self.now }
    {
        &self.cert.value
    }

    /// The certificate, with its signature.
    pub fn signed_cert(&self) -> &Signed<Cert<A>>
        ensures { result.now ≡ record { value = self.now.cert; signature = self.now.signature } }
    {
        &self.cert
    }

    /// The user's signature of the certificate.
    pub fn signature(&self) -> &Signature
        ensures { result.now ≡ self.now.signature }
    {
        &self.cert.signature
    }

    /// What the server expects of the operation.
    pub fn plan(&self) -> &Plan<A>
        ensures { result.now ≡ self.now.plan }
    {
        &self.plan
    }
}

/// What has a pending operation in it.
pub trait HasItem<A: Allocator> {
    ghost use Rattle.pending_list.specs.Reply.{PendingItem};

    ghost item: { Self → PendingItem };

    /// The pending operation.
    fn item(&self) -> &PendingItem<A>
        ensures { result.now ≡ item self.now };
}

/// The rows of the structures.
#[derive(Clone, Copy)]
struct StructureRows;

impl<A: Allocator + Copy> RowFormat<A> for StructureRows {
    type Item = Signed<Structure<A>>;

    ghost format = { λ _. structure_rows };

    fn read_fields(
        &self,
        alloc: A,
        reader: &mut Reader<'_>,
        _before: Option<&Signed<Structure<A>>>,
    ) -> Result<Signed<Structure<A>>, ReadError> {
        let value = read_nested(alloc, reader)?;
        let signature = Signature::read_from(reader)?;
        Ok(Signed { value, signature })
    }

    fn write_fields(
        &self,
        writer: &mut Writer<A>,
        row: &Signed<Structure<A>>,
    ) -> Result<(), Memory> {
        let _plan = row.value.plan();
        write_nested(*writer.allocator(), writer, &row.value)?;
        writer.bytes(row.signature.as_bytes())
    }
}

/// The rows of the pending operations.
#[derive(Clone, Copy)]
struct PendingRows;

impl<A: Allocator + Copy> RowFormat<A> for PendingRows {
    type Item = PendingItem<A>;

    ghost format = { λ _. pending_rows };

    fn read_fields(
        &self,
        alloc: A,
        reader: &mut Reader<'_>,
        _before: Option<&PendingItem<A>>,
    ) -> Result<PendingItem<A>, ReadError> {
        let value = read_nested(alloc, reader)?;
        let signature = Signature::read_from(reader)?;
        let plan = read_nested(alloc, reader)?;
        Ok(PendingItem::new(Signed { value, signature }, plan))
    }

    fn write_fields(&self, writer: &mut Writer<A>, row: &PendingItem<A>) -> Result<(), Memory> {
        let alloc = *writer.allocator();
        write_nested(alloc, writer, row.cert())?;
        writer.bytes(row.signature().as_bytes())?;
        write_nested(alloc, writer, row.plan())
    }
}

/// A list's rows, after their count.
fn read_list<A: Allocator + Copy, F: RowFormat<A>>(
    alloc: A,
    reader: &mut Reader<'_>,
    format: &F,
) -> Result<Vec<F::Item, A>, ReadError>
    ensures { ReadsAs (λ v. v.items) result reader.new
        ((listed (uint_in w8 0 64) (F.format format.now)).read reader.old) }
{
    let count = reader.u8_in(0, 64)?;
    read_rows(alloc, reader, format, usize::from(count))
}

/// The answer to an update.
#[derive(Drop)]
pub struct Reply<A: Allocator> {
    structures: Vec<Signed<Structure<A>>, A>,
    pending: Vec<PendingItem<A>, A>,
}

impl<A: Allocator> Model for Reply<A> {
    ghost use Rattle.pending_list.specs.Reply.{Reply, reply};

    ghost Value = { Reply };

    ghost view = { λ r. record { structures = r.structures.items; pending = r.pending.items } };

    ghost invariant = { λ r. reply.Fits (record { structures = r.structures.items; pending = r.pending.items }) };
}

impl<A: Allocator + Copy> Text<A> for Reply<A> {
    ghost use Rattle.pending_list.specs.Reply.{reply};
    ghost use Rattle.pending_list.specs.ReplyLaws.{lawful_reply};

    ghost format = { reply };

    fn read_fields(alloc: A, reader: &mut Reader<'_>) -> Result<Reply<A>, ReadError> {
        reader.tag(b"SRL1")?;
        let structures = read_list(alloc, reader, &StructureRows)?;
        let pending = match read_list(alloc, reader, &PendingRows) {
            Ok(pending) => pending,
            Err(error) => {
                let_go(structures);
                return Err(error);
            }
        };
        Ok(Reply {
            structures,
            pending,
        })
    }

    fn write_fields(&self, writer: &mut Writer<A>) -> Result<(), Memory> {
        write_lists(writer, &self.structures, &self.pending)
    }

    ghost lawful = { lawful_reply };
}

/// That each structure fits its row, as its own contract says.
fn structures_fit<A: Allocator>(structures: &[Signed<Structure<A>>])
    ensures { All signed_structure.Fits structures.now }
{
    for structure in structures {
        let _plan = structure.value.plan();
        let _signature = structure.signature.as_bytes();
    }
}

/// That each pending operation fits its row, as its own contract says.
fn pending_fit<A: Allocator>(pending: &[PendingItem<A>])
    ensures { All pending_item.Fits pending.now }
{
    for item in pending {
        item.fits();
    }
}

impl<A: Allocator> Reply<A> {
    ghost use Rattle.pending_list.specs.Reply.{reply};

    /// The reply of these two lists, of at most 64 rows each.
    pub fn new(
        structures: Vec<Signed<Structure<A>>, A>,
        pending: Vec<PendingItem<A>, A>,
    ) -> Reply<A>
        requires few_structures { vec_len structures ≤ MOST_ROWS }
        requires few_pending { vec_len pending ≤ MOST_ROWS }
        ensures { result ≡ record { structures = structures.items; pending = pending.items } }
    {
        structures_fit(&structures);
        pending_fit(&pending);
        Reply {
            structures,
            pending,
        }
    }

    /// The latest structure of each user.
    #[tactic(auto, using(crate::specs::ReplyLaws::size_of))]
    pub fn structures(&self) -> &[Signed<Structure<A>>]
        ensures same { result.now ≡ self.now.structures }
        ensures fits { reply.Fits self.now }
        // How long its text is at most.
        ensures size { length (reply.spell self.now) ≤ REPLY_SIZE }
    {
        &self.structures
    }

    /// The pending operations, in their order.
    pub fn pending(&self) -> &[PendingItem<A>]
        ensures { result.now ≡ self.now.pending }
    {
        &self.pending
    }

    /// The two lists.
    pub fn into_parts(self) -> (Vec<Signed<Structure<A>>, A>, Vec<PendingItem<A>, A>)
        ensures structures { result.0.items ≡ self.structures }
        ensures pending { result.1.items ≡ self.pending }
    {
        let Reply {
            structures,
            pending,
        } = self;
        (structures, pending)
    }
}

/// Writes the reply of two lists, of at most 64 rows each.
fn write_lists<A: Allocator + Copy>(
    writer: &mut Writer<A>,
    structures: &[Signed<Structure<A>>],
    pending: &[PendingItem<A>],
) -> Result<(), Memory>
    requires few_structures { length structures.now ≤ MOST_ROWS }
    requires few_pending { length pending.now ≤ MOST_ROWS }
    ensures ok { OnOk result (writer.new
        ≡ reply.onto writer.old (record { structures = structures.now; pending = pending.now })) }
    ensures front { OnErr result (BeginsWith writer.new writer.old) }
{
    writer.tag(b"SRL1")?;
    writer.u8(structures.len() as u8)?;
    write_rows(writer, &StructureRows, structures)?;
    writer.u8(pending.len() as u8)?;
    write_rows(writer, &PendingRows, pending)
}

/// That each pending operation in these fits its row, as its own contract says.
fn others_fit<A: Allocator, H: HasItem<A>>(others: &[H])
    ensures { All pending_item.Fits (map H.item others.now) }
{
    for other in others {
        other.item().fits();
    }
}

/// Writes the pending operations in these.
fn write_others<A: Allocator + Copy, H: HasItem<A>>(
    writer: &mut Writer<A>,
    others: &[H],
) -> Result<(), Memory>
    ensures { OnOk result (writer.new ≡ rows_onto (after_row pending_rows) None writer.old (map H.item others.now)) }
{
    for other in others {
        PendingRows.write_row(writer, other.item())?;
    }
    Ok(())
}

impl<A: Allocator + Copy> Reply<A> {
    ghost use Rattle.pending_list.specs.Reply.{reply};

    /// The text of the reply to an operation, which stands last: of at most 64 structures, and at most 63 other
    /// operations that are pending. All of them stay where they are.
    pub fn text_of<H: HasItem<A>>(
        alloc: A,
        structures: &[Signed<Structure<A>>],
        others: &[H],
        own: &PendingItem<A>,
    ) -> Result<Vec<u8, A>, Memory>
        requires few_structures { length structures.now ≤ MOST_ROWS }
        requires few_others { length others.now < MOST_ROWS }
        ensures text { IfOk result (λ text. text.items
            ≡ reply.spell (record { structures = structures.now; pending = map H.item others.now ++ own.now ∷ [] })) }
        ensures size { IfOk result (λ text. length text.items ≤ REPLY_SIZE) }
    {
        structures_fit(structures);
        others_fit(others);
        own.fits();
        let mut writer = Writer::new(alloc);
        writer.tag(b"SRL1")?;
        writer.u8(structures.len() as u8)?;
        write_rows(&mut writer, &StructureRows, structures)?;
        writer.u8(others.len() as u8 + 1)?;
        write_others(&mut writer, others)?;
        PendingRows.write_row(&mut writer, own)?;
        Ok(writer.finish())
    }
}
