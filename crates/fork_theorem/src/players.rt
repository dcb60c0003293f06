//! The clients of a script.

ghost use Rattle.std.specs.Prelude.{◌≡◌, ◌<◌, IfOk, IfSome, length, vec_len};

use crate::who::Who;
use checked_blocks::MOST_CACHED;
use client_verify::{Client, Keys, Parts, Phase};
use layout::{Memory, User, beside, let_go};
use leaf_ledger::MemoryDevice;
use lms_sign::{PrivateKey, PublicKey};
use std::alloc::Allocator;
use wire::Status;

/// How many keys of a user `setkey` names at the most.
const LATER_KEYS: u8 = 3;

/// How far apart the bytes are of which the identifiers of a user's keys are made.
const KEY_STEP: u8 = 64;

/// A client whose devices are in memory, its first key, and what it signed last.
#[derive(Drop)]
pub(crate) struct Player<A: Allocator + Copy> {
    pub(crate) who: Who,
    pub(crate) client: Client<MemoryDevice<A>, MemoryDevice<A>, A>,
    key: PublicKey,
    /// How many keys it has beside its first one, or, of user 0, `setkey` has named.
    later_keys: u8,
    /// The text of its last signed structure: no bytes before the first.
    pub(crate) last: Vec<u8, A>,
}

/// What is kept of a client while it is closed.
type Kept<A> = Parts<MemoryDevice<A>, MemoryDevice<A>, A>;

/// How a client is opened again.
#[derive(Drop)]
enum Reopening<A: Allocator + Copy> {
    /// After a crash that left nothing unsynced.
    AfterCrash,
    /// By this key, too, over a new ledger.
    By(PrivateKey<A>),
}

/// The clients that were named so far, and how many blocks the cache of each may have.
#[derive(Drop)]
pub(crate) struct Players<A: Allocator + Copy> {
    alloc: A,
    pinned: PublicKey,
    capacity: usize,
    pub(crate) list: Vec<Player<A>, A>,
}

/// A user's key in a script, which is drawn from bytes of the user's number and, of a later one, its own.
fn key_at<A: Allocator + Copy>(alloc: A, user: User, later: u8) -> Result<PrivateKey<A>, Memory> {
    let identifier = user.get().wrapping_add(KEY_STEP.wrapping_mul(later));
    PrivateKey::from_seed(alloc, [user.get(); 32], [identifier; 16])
}

/// The device after a crash that left nothing unsynced.
fn crashed<A: Allocator + Copy>(
    alloc: A,
    device: MemoryDevice<A>,
) -> Result<MemoryDevice<A>, Memory> {
    let left = Vec::from_slice(alloc, device.synced_text())?;
    match device.crash(left) {
        Ok(device) => Ok(device),
        // What stood there at the last sync is always left.
        Err(_) => Err(Memory),
    }
}

/// Each key with its ledger's device after a crash that left nothing unsynced.
fn all_crashed<A: Allocator + Copy>(
    alloc: A,
    keys: Keys<MemoryDevice<A>, A>,
) -> Result<Keys<MemoryDevice<A>, A>, Memory> {
    let mut left = Vec::new(alloc);
    for (key, ledger) in keys {
        let ledger = crashed(alloc, ledger);
        let (key, ledger) = beside(key, ledger)?;
        left.push((key, ledger))?;
    }
    Ok(left)
}

/// What was kept of a client, as it is opened over it again.
fn prepared<A: Allocator + Copy>(
    alloc: A,
    kept: Kept<A>,
    with: Reopening<A>,
) -> Result<Kept<A>, Memory> {
    let Parts { keys, journal } = kept;
    match with {
        Reopening::AfterCrash => {
            let (keys, journal) = beside(keys, crashed(alloc, journal))?;
            let (journal, keys) = beside(journal, all_crashed(alloc, keys))?;
            Ok(Parts { keys, journal })
        }
        Reopening::By(key) => {
            let mut keys = keys;
            let ledger = MemoryDevice::new(alloc, Vec::new(alloc))?;
            keys.push((key, ledger))?;
            Ok(Parts { keys, journal })
        }
    }
}

/// A client over these keys and devices, whose last signed structure this is, with a cache for so many blocks, 1 to
/// 4,096. A device in memory fails by want of memory alone, and what stands on these is the user's own: so nothing else
/// refuses it. A client has a key.
fn open<A: Allocator + Copy>(
    alloc: A,
    who: Who,
    pinned: PublicKey,
    capacity: usize,
    kept: Kept<A>,
    last: Vec<u8, A>,
) -> Result<Player<A>, Memory> {
    let Parts { keys, journal } = kept;
    if keys.is_empty() {
        return Err(Memory);
    }
    let key = keys[0].0.public();
    match Client::open(alloc, who.user, keys, pinned, journal) {
        Ok(mut client) => {
            client.cache(capacity.clamp(1, MOST_CACHED));
            Ok(Player {
                who,
                client,
                key,
                later_keys: 0,
                last,
            })
        }
        Err((_, parts)) => {
            let_go(parts);
            Err(Memory)
        }
    }
}

/// The first key of a user and so many later ones, each with a new ledger.
fn keys_of<A: Allocator + Copy>(
    alloc: A,
    user: User,
    later_keys: u8,
) -> Result<Keys<MemoryDevice<A>, A>, Memory> {
    let mut keys = Vec::new(alloc);
    for later in 0..=later_keys {
        let ledger = MemoryDevice::new(alloc, Vec::new(alloc))?;
        let (ledger, key) = beside(ledger, key_at(alloc, user, later))?;
        keys.push((key, ledger))?;
    }
    Ok(keys)
}

/// A client by its user's first key and so many later ones, over new ledgers and a journal of this text, which has
/// signed nothing.
fn first_open<A: Allocator + Copy>(
    alloc: A,
    who: Who,
    later_keys: u8,
    pinned: PublicKey,
    capacity: usize,
    journal: Vec<u8, A>,
) -> Result<Player<A>, Memory> {
    let journal = MemoryDevice::new(alloc, journal)?;
    let (journal, keys) = beside(journal, keys_of(alloc, who.user, later_keys))?;
    let kept = Parts { keys, journal };
    open(alloc, who, pinned, capacity, kept, Vec::new(alloc))
}

/// Where a client stands in the list, if it was made.
fn named_at<A: Allocator + Copy>(list: &[Player<A>], who: Who) -> Option<usize>
    ensures { IfSome result (λ place. place < length list.now) }
{
    for place in 0..list.len() {
        if list[place].who == who {
            return Some(place);
        }
    }
    None
}

impl<A: Allocator + Copy> Players<A> {
    /// Client 0, whose key all clients know. The cache of each client may have so many blocks.
    pub(crate) fn new(alloc: A, capacity: usize) -> Result<Players<A>, Memory> {
        let who = Who::own(User::superuser());
        let pinned = key_at(alloc, who.user, 0)?.public();
        let player = first_open(alloc, who, 0, pinned, capacity, Vec::new(alloc))?;
        let mut list = Vec::new(alloc);
        list.push(player)?;
        Ok(Players {
            alloc,
            pinned,
            capacity,
            list,
        })
    }

    /// User 0's key.
    pub(crate) fn pinned(&self) -> PublicKey {
        self.pinned
    }

    /// Makes a client by its user's first key and so many later ones, over new ledgers and a journal of this text: where
    /// it stands in the list.
    fn make(&mut self, who: Who, later_keys: u8, journal: Vec<u8, A>) -> Result<usize, Memory>
        ensures { IfOk result (λ place. place < vec_len self.new.list) }
    {
        let (pinned, capacity) = (self.pinned, self.capacity);
        let mut player = first_open(self.alloc, who, later_keys, pinned, capacity, journal)?;
        player.later_keys = later_keys;
        self.list.push(player)?;
        Ok(self.list.len() - 1)
    }

    /// Where the own client of a user stands in the list; it is made when it is first named.
    fn own_place(&mut self, user: User) -> Result<usize, Memory>
        ensures { IfOk result (λ place. place < vec_len self.new.list) }
    {
        if let Some(place) = named_at(&self.list, Who::own(user)) {
            return Ok(place);
        }
        let journal = Vec::new(self.alloc);
        self.make(Who::own(user), 0, journal)
    }

    /// Where a client stands in the list. A user's own is made when it is first named; one that has a user's stolen
    /// keys is there once these were stolen.
    pub(crate) fn place_of(&mut self, who: Who) -> Result<Option<usize>, Memory>
        ensures { IfOk result (λ place. IfSome place (λ place. place < vec_len self.new.list)) }
    {
        if !who.is_thief {
            return Ok(Some(self.own_place(who.user)?));
        }
        match named_at(&self.list, who) {
            Some(place) => Ok(Some(place)),
            None => Ok(None),
        }
    }

    /// Closes a client, and opens it again, after a crash that left nothing unsynced or by one key more, over a new
    /// ledger: where it stands in the list. It is in the phase that its journal tells, and has no view. Where memory
    /// runs out the client is gone, and the script ends.
    fn reopen(&mut self, place: usize, with: Reopening<A>) -> Result<usize, Memory>
        requires { place < vec_len self.old.list }
        ensures { IfOk result (λ place. place < vec_len self.new.list) }
    {
        let Player {
            who,
            client,
            key: _,
            later_keys,
            last,
        } = self.list.remove(place);
        let kept = client.close();
        let (last, kept) = beside(last, prepared(self.alloc, kept, with))?;
        let mut player = open(self.alloc, who, self.pinned, self.capacity, kept, last)?;
        player.later_keys = later_keys;
        self.list.push(player)?;
        Ok(self.list.len() - 1)
    }

    /// A client takes a structure that its journal tells of for committed.
    fn commit(&mut self, place: usize)
        requires { place < vec_len self.old.list }
    {
        let client = &mut self.list[place].client;
        if client.phase() == Phase::Signed {
            client.on_committed(Status::Ok);
        }
    }

    /// Opens a second client of a user, by all keys that the user's own client has, over new ledgers and a copy of that
    /// client's journal; where that tells of a structure, the new one takes it for committed. Whether the keys were
    /// stolen by this: user 0's can't be, and another's once.
    pub(crate) fn steal(&mut self, user: User) -> Result<bool, Memory> {
        if user == User::superuser() || named_at(&self.list, Who::thief(user)).is_some() {
            return Ok(false);
        }
        let alloc = self.alloc;
        let place = self.own_place(user)?;
        let later_keys = self.list[place].later_keys;
        let journal = Vec::from_slice(alloc, self.list[place].client.journal().text())?;
        let place = self.make(Who::thief(user), later_keys, journal)?;
        self.commit(place);
        Ok(true)
    }

    /// Crashes a client, so that nothing unsynced is kept, and opens it again: its phase, if it was made. Where memory
    /// runs out the client is gone, and the script ends.
    pub(crate) fn restart(&mut self, who: Who) -> Result<Option<Phase>, Memory> {
        let Some(place) = self.place_of(who)? else {
            return Ok(None);
        };
        let place = self.reopen(place, Reopening::AfterCrash)?;
        Ok(Some(self.list[place].client.phase()))
    }

    /// How many keys of a user may still be named.
    pub(crate) fn keys_left(&mut self, user: User) -> Result<u8, Memory> {
        let place = self.own_place(user)?;
        Ok(LATER_KEYS.saturating_sub(self.list[place].later_keys))
    }

    /// The key of a user that is named after so many further ones.
    pub(crate) fn next_key(&mut self, user: User, after: u8) -> Result<PrivateKey<A>, Memory> {
        let place = self.own_place(user)?;
        let later = self.list[place]
            .later_keys
            .saturating_add(after)
            .saturating_add(1);
        key_at(self.alloc, user, later)
    }

    /// The own client of a user has this key from now on, too: it is opened again by it, and stays in its phase. User
    /// 0's doesn't: its key is named alone.
    pub(crate) fn gain(&mut self, user: User, key: PrivateKey<A>) -> Result<(), Memory> {
        let place = self.own_place(user)?;
        let later_keys = self.list[place].later_keys.saturating_add(1);
        if user == User::superuser() {
            let_go(key);
            self.list[place].later_keys = later_keys;
            return Ok(());
        }
        let is_idle = self.list[place].client.phase() == Phase::Idle;
        let place = self.reopen(place, Reopening::By(key))?;
        self.list[place].later_keys = later_keys;
        if is_idle {
            self.commit(place);
        }
        Ok(())
    }

    /// The text of the structure that the own client of a user signed last: no bytes where it signed none.
    pub(crate) fn last_signed(&self, user: User) -> &[u8] {
        match named_at(&self.list, Who::own(user)) {
            Some(place) => &self.list[place].last,
            None => &[],
        }
    }

    /// The first key of a user's own client.
    pub(crate) fn key_of(&mut self, user: User) -> Result<PublicKey, Memory> {
        let place = self.own_place(user)?;
        Ok(self.list[place].key)
    }
}
