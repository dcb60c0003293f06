//! An operation that is pending, and the texts that spell it.

ghost use Rattle.std.specs.Prelude.{◌≡◌, IfOk, OnOk};
ghost use Rattle.std.specs.Str.{bytes_eq};
ghost use Rattle.version_order.specs.Plan.{plan as plan_format, entry_of};
ghost use Rattle.update_cert.specs.Cert.{cert as cert_format};
ghost use Rattle.pending_list.specs.Signed.{signed};
ghost use Rattle.pending_list.specs.Reply.{pending_item};
ghost use Rattle.consistency_server.specs.Answers.{cert_of};

use layout::{Memory, Text, Writer, beside, digest};
use lms_sign::SIGNATURE_SIZE;
use pending_list::{PendingItem, Signed};
use std::alloc::Allocator;
use std::marker::Model;
use update_cert::Cert;
use version_order::{Entry, Plan};

/// An operation that is pending, and the texts that spell its signed certificate and its plan. Contracts see the
/// operation.
#[derive(Drop)]
pub(crate) struct SpelledItem<A: Allocator> {
    item: PendingItem<A>,
    cert_text: Vec<u8, A>,
    plan_text: Vec<u8, A>,
}

impl<A: Allocator> Model for SpelledItem<A> {
    ghost use Rattle.std.specs.Prelude.{◌≡◌};
    ghost use Rattle.version_order.specs.Plan.{plan as plan_format};
    ghost use Rattle.update_cert.specs.Cert.{cert as cert_format};
    ghost use Rattle.pending_list.specs.Signed.{signed};
    ghost use Rattle.pending_list.specs.Reply.{PendingItem};
    ghost use Rattle.consistency_server.specs.Answers.{cert_of};

    ghost Value = { PendingItem };

    ghost view = { λ s. s.item };

    ghost invariant = { λ s. (s.cert_text.items ≡ (signed cert_format).spell (cert_of s.item))
        × (s.plan_text.items ≡ plan_format.spell s.item.plan) };
}

impl<A: Allocator> SpelledItem<A> {
    /// The certificate.
    pub(crate) fn cert(&self) -> &Cert<A>
        ensures { result.now ≡ self.now.cert }
    {
        self.item.cert()
    }

    /// What the server expects of the operation.
    pub(crate) fn plan(&self) -> &Plan<A>
        ensures { result.now ≡ self.now.plan }
    {
        self.item.plan()
    }

    /// Whether the text spells its signed certificate.
    pub(crate) fn has_cert(&self, text: &[u8]) -> bool
        ensures { result ≡ bytes_eq text.now ((signed cert_format).spell (cert_of self.now)) }
    {
        text == self.cert_text.as_slice()
    }

    /// Whether the text spells its plan.
    pub(crate) fn has_plan(&self, text: &[u8]) -> bool
        ensures { result ≡ bytes_eq text.now (plan_format.spell self.now.plan) }
    {
        text == self.plan_text.as_slice()
    }

    /// What later plans have of it.
    pub(crate) fn entry(&self) -> Entry
        ensures { result ≡ entry_of self.now.plan }
    {
        Entry {
            user: self.plan().user(),
            number: self.plan().number(),
            plan: digest(&self.plan_text),
        }
    }

    /// How many bytes its row of a reply takes.
    pub(crate) fn row_size(&self) -> usize {
        self.cert_text
            .len()
            .saturating_add(self.plan_text.len())
            .saturating_add(4)
    }

    /// Writes its row of a reply.
    pub(crate) fn write_row(&self, writer: &mut Writer<A>) -> Result<(), Memory>
        ensures ok { OnOk result (writer.new ≡ pending_item.onto writer.old self.now) }
        ensures fits { pending_item.Fits self.now }
    {
        let _cert = self.item.cert();
        writer.u16((self.cert_text.len() - SIGNATURE_SIZE) as u16)?;
        writer.bytes(&self.cert_text)?;
        writer.u16(self.plan_text.len() as u16)?;
        writer.bytes(&self.plan_text)
    }
}

/// A copy of the certificate's text, and the plan's text.
fn texts_of<A: Allocator + Copy>(
    alloc: A,
    item: &PendingItem<A>,
    cert_text: &[u8],
) -> Result<(Vec<u8, A>, Vec<u8, A>), Memory>
    ensures cert { IfOk result (λ texts. texts.0.items ≡ cert_text.now) }
    ensures plan { IfOk result (λ texts. texts.1.items ≡ plan_format.spell item.now.plan) }
{
    let cert_text = Vec::from_slice(alloc, cert_text)?;
    let plan_text = item.plan().text(alloc)?;
    Ok((cert_text, plan_text))
}

impl<A: Allocator + Copy> SpelledItem<A> {
    /// The operation of a plan and a signed certificate, which the text spells.
    pub(crate) fn new(
        alloc: A,
        cert: Signed<Cert<A>>,
        cert_text: &[u8],
        plan: Plan<A>,
    ) -> Result<SpelledItem<A>, Memory>
        requires { cert_text.now ≡ (signed cert_format).spell cert }
        ensures { IfOk result
            (λ item. item ≡ record { cert = cert.value; signature = cert.signature; plan = plan }) }
    {
        let item = PendingItem::new(cert, plan);
        let texts = texts_of(alloc, &item, cert_text);
        let (item, (cert_text, plan_text)) = beside(item, texts)?;
        Ok(SpelledItem {
            item,
            cert_text,
            plan_text,
        })
    }
}
