//! The key that a connection remembers, by which a signature is verified before the lock is taken.

ghost use Rattle.std.specs.Prelude.{◌≡◌};
ghost use Rattle.server_workers.specs.Seen.{certifier, later_seen, seen_for};

use consistency_server::Signer;
use layout::User;
use lms_sign::PublicKey;

/// The user of a connection's last certificate, and the key of that user that came last, as it stood under the lock
/// then. Under the lock it is compared with the one that is listed.
#[derive(Clone, Copy, Debug)]
pub struct SeenKey {
    pub user: User,
    pub key: PublicKey,
}

/// The key that was seen, where it is the one by which this signer is judged: of a certificate of its user.
pub fn seen_for(seen: Option<SeenKey>, signer: Signer) -> Option<PublicKey>
    ensures { result ≡ seen_for seen signer }
{
    let SeenKey { user, key } = seen?;
    if user == signer.user && signer.version.is_none() {
        Some(key)
    } else {
        None
    }
}

/// The user of a certificate. None of a structure.
pub fn certifier(signer: Option<Signer>) -> Option<User>
    ensures { result ≡ certifier signer }
{
    let Signer { user, version } = signer?;
    if version.is_none() { Some(user) } else { None }
}

/// What was seen last: the later, if there is one.
pub fn see(seen: &mut Option<SeenKey>, later: Option<SeenKey>)
    ensures { seen.new ≡ later_seen later seen.old }
{
    if later.is_some() {
        *seen = later;
    }
}
