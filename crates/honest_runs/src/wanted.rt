//! Which blocks clients ask for.

ghost use Rattle.std.specs.Prelude.{◌≡◌, ◌<◌, ℕ, IfOk, length, slice_set};
ghost use Rattle.honest_runs.specs.Town.{noting, nothing, wanted_at};

use client_runs::Answer;
use client_verify::{Look, Step};
use layout::{Digest, Memory, User};
use std::alloc::Allocator;

/// The digests of the blocks that a client asked for last.
#[derive(Clone, Copy)]
pub(crate) struct Wanted {
    /// For a reply under check.
    pub(crate) reply: Option<Digest>,
    /// For a look.
    pub(crate) look: Option<Digest>,
}

impl Wanted {
    /// What it asks for after it answered so.
    fn after<A: Allocator>(self, answer: &Answer<A>) -> Wanted
        ensures { result ≡ noting self answer.now }
    {
        match answer {
            Answer::Asks(Ok(Step::Need(digest))) => Wanted {
                reply: Some(*digest),
                look: self.look,
            },
            Answer::Sees(Ok(Look::Need(digest))) => Wanted {
                reply: self.reply,
                look: Some(*digest),
            },
            _ => self,
        }
    }
}

/// No user's client asks for anything.
pub(crate) fn nothing_wanted<A: Allocator>(alloc: A) -> Result<Vec<Wanted, A>, Memory>
    ensures size { IfOk result (λ wanted. length wanted.items ≡ 64) }
    ensures none { IfOk result (λ wanted. (u : ℕ) → wanted_at wanted.items u ≡ nothing) }
{
    let mut wanted = Vec::new(alloc);
    for _ in 0..64u8 {
        wanted.push(Wanted {
            reply: None,
            look: None,
        })?;
    }
    Ok(wanted)
}

/// Notes what a user's client asks for after it answered so.
pub(crate) fn note<A: Allocator>(wanted: &mut Vec<Wanted, A>, user: User, answer: &Answer<A>)
    requires { length wanted.old.items ≡ 64 }
    ensures noted { wanted.new.items
        ≡ slice_set wanted.old.items user (noting (wanted_at wanted.old.items user) answer.now) }
    ensures user { user < 64 }
{
    let place = user.get() as usize;
    wanted[place] = wanted[place].after(answer);
}
