//! What a client compares a reply with, and what of it needn't be verified again.

ghost use Rattle.std.specs.Prelude.{◌≡◌, true, IfOk, IfSome, IsTrue};
ghost use Rattle.std.specs.Option.{option_copied};
ghost use Rattle.lms_sign.specs.Signature.{valid};
ghost use Rattle.update_cert.specs.Cert.{cert};
ghost use Rattle.version_order.specs.Structure.{structure};
ghost use Rattle.reply_check.specs.FirstBroken.{cert_sent};
ghost use Rattle.reply_check.specs.Verified.{AreOwn};

use crate::good::Good;
use layout::{Memory, Text, User};
use lms_sign::{PublicKey, verify};
use pending_list::{PendingItem, Signed};
use std::alloc::Allocator;
use std::marker::Model;
use update_cert::Cert;
use version_order::Structure;

/// What a client compares a reply with: who it is, user 0's key, the structure that it signed last and its declared
/// certificate as it was sent. Beside them its own public key, where it is known that it signed both, and the lists
/// that broke no rule last, whose signatures were verified.
#[derive(Drop)]
pub struct Known<'a, A: Allocator> {
    user: User,
    pinned: &'a PublicKey,
    last: Option<&'a Signed<Structure<A>>>,
    declared: &'a [u8],
    own: Option<PublicKey>,
    accepted: Option<&'a Good<A>>,
}

impl<'a, A: Allocator> Model for Known<'a, A> {
    ghost use Rattle.std.specs.Prelude.{IfSome};
    ghost use Rattle.std.specs.Option.{option_copied};
    ghost use Rattle.reply_check.specs.FirstBroken.{Known};
    ghost use Rattle.reply_check.specs.Verified.{AreOwn};

    ghost Value = { Known };

    ghost view = { λ k. record {
      user = k.user;
      pinned = k.pinned.now;
      last = option_copied k.last;
      declared = k.declared.now;
    } };

    ghost invariant = { λ k. IfSome k.own (λ key. AreOwn key (option_copied k.last) k.declared.now) };
}

/// A certificate with its signature, as it was sent.
pub(crate) fn cert_sent<A: Allocator + Copy>(
    alloc: A,
    item: &PendingItem<A>,
) -> Result<Vec<u8, A>, Memory>
    ensures { IfOk result (λ text. text.items ≡ cert_sent item.now) }
{
    item.signed_cert().text(alloc)
}

/// Whether a text is signed under this key. One that is as it was when it was signed under the key isn't verified
/// again.
fn is_signed<A: Allocator + Copy, T: Text<A>>(
    alloc: A,
    key: &PublicKey,
    shown: &Signed<T>,
    before: Option<&Signed<T>>,
) -> Result<bool, Memory>
    requires { IfSome (option_copied before) (λ b. valid key.now (T.format.spell b.value) b.signature ≡ true) }
    ensures { IfOk result (λ is. is ≡ valid key.now (T.format.spell shown.now.value) shown.now.signature) }
{
    let text = shown.value.text(alloc)?;
    if let Some(before) = before {
        if before.signature == shown.signature {
            let verified = before.value.text(alloc)?;
            if verified.as_slice() == text.as_slice() {
                return Ok(true);
            }
        }
    }
    Ok(verify(key, &text, shown.signature.as_bytes()))
}

impl<'a, A: Allocator> Known<'a, A> {
    ghost use Rattle.reply_check.specs.FirstBroken.{Known};

    /// This is known: the structure and the certificate were signed by the own key, if there is one.
    pub fn new(
        user: User,
        pinned: &'a PublicKey,
        last: Option<&'a Signed<Structure<A>>>,
        declared: &'a [u8],
        own: Option<PublicKey>,
        accepted: Option<&'a Good<A>>,
    ) -> Known<'a, A>
        requires { IfSome own (λ key. AreOwn key (option_copied last) declared.now) }
        ensures { result ≡ record {
          user = user;
          pinned = pinned.now;
          last = option_copied last.entry;
          declared = declared.now;
        } }
    {
        Known {
            user,
            pinned,
            last,
            declared,
            own,
            accepted,
        }
    }

    /// Who it is.
    pub(crate) fn user(&self) -> User
        ensures { result ≡ self.now.user }
    {
        self.user
    }

    /// User 0's key.
    pub(crate) fn pinned(&self) -> &'a PublicKey
        ensures { result.now ≡ self.now.pinned }
    {
        self.pinned
    }

    /// The structure that it signed last.
    pub(crate) fn last(&self) -> Option<&'a Signed<Structure<A>>>
        ensures { option_copied result ≡ self.now.last }
    {
        self.last
    }

    /// The declared certificate, as it was sent.
    pub(crate) fn declared(&self) -> &'a [u8]
        ensures { result.now ≡ self.now.declared }
    {
        self.declared
    }

    /// Whether it is known that this key signed the own last structure and the declared certificate.
    fn is_own(&self, key: &PublicKey) -> bool
        ensures { IsTrue result → AreOwn key.now self.now.last self.now.declared }
    {
        match &self.own {
            Some(own) => *own == *key,
            None => false,
        }
    }

    /// A structure of this user that was signed under this key: the own last one, or that of the lists that broke no
    /// rule last.
    fn structure_of(&self, key: &PublicKey, user: User) -> Option<&'a Signed<Structure<A>>>
        ensures { IfSome (option_copied result) (λ z. valid key.now (structure.spell z.value) z.signature ≡ true) }
    {
        if user == self.user && self.is_own(key) {
            self.last
        } else {
            self.accepted?.structure_of(key, user)
        }
    }

    /// A certificate of this user that was signed under this key, pending in these lists.
    fn cert_of(&self, key: &PublicKey, user: User) -> Option<&'a Signed<Cert<A>>>
        ensures { IfSome (option_copied result) (λ c. valid key.now (cert.spell c.value) c.signature ≡ true) }
    {
        self.accepted?.cert_of(key, user)
    }
}

impl<'a, A: Allocator + Copy> Known<'a, A> {
    /// Whether a structure is signed under this key. The own last one, and one that stands so in the lists that broke
    /// no rule last, isn't verified again.
    pub(crate) fn structure_is_signed(
        &self,
        alloc: A,
        key: &PublicKey,
        shown: &Signed<Structure<A>>,
    ) -> Result<bool, Memory>
        ensures { IfOk result (λ is. is ≡ valid key.now (structure.spell shown.now.value) shown.now.signature) }
    {
        let before = self.structure_of(key, shown.value.plan().user());
        is_signed(alloc, key, shown, before)
    }

    /// Whether this is the declared certificate, which was signed under this key.
    fn is_declared(&self, alloc: A, key: &PublicKey, item: &PendingItem<A>) -> Result<bool, Memory>
        ensures { IfOk result (λ is. is ≡ true → valid key.now (cert.spell item.now.cert) item.now.signature ≡ true) }
    {
        if !self.is_own(key) {
            return Ok(false);
        }
        // Of 2,508 bytes.
        let _signature = item.signature().as_bytes();
        let sent = cert_sent(alloc, item)?;
        Ok(sent.as_slice() == self.declared)
    }

    /// Whether a pending certificate is signed under this key. The declared one, and one that was pending so in the
    /// lists that broke no rule last, isn't verified again.
    pub(crate) fn cert_is_signed(
        &self,
        alloc: A,
        key: &PublicKey,
        item: &PendingItem<A>,
    ) -> Result<bool, Memory>
        ensures { IfOk result (λ is. is ≡ valid key.now (cert.spell item.now.cert) item.now.signature) }
    {
        if self.is_declared(alloc, key, item)? {
            return Ok(true);
        }
        let before = self.cert_of(key, item.cert().user());
        is_signed(alloc, key, item.signed_cert(), before)
    }
}
