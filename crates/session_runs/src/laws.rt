//! Laws of sessions, for the proofs of callers: functions that do nothing.

ghost use Rattle.fork_consistency.specs.ForkConsistent.{AreForkConsistent};
ghost use Rattle.session_runs.specs.Lives.{EachLives, LivesAreRuns};
ghost use Rattle.session_runs.specs.Told.{SessionsTellWorlds};

use std::alloc::Allocator;
use transport::Transport;

/// What happens to the clients of all users, where each is opened, carries out commands by sessions over any transport,
/// is closed and crashes, is a run of them, in whatever order the users' steps come.
pub fn lives_are_runs<T: Transport<A>, A: Allocator + Copy>()
    ensures { LivesAreRuns T.answers }
{}

/// So it is fork consistent, as long as no digest collides, no signature is forged, user 0's client added each user
/// with the user's own key, user 0's key has the form of a key, and no two keys of a user have one identifier. Of
/// servers and transports nothing is assumed.
pub fn sessions_are_fork_consistent<T: Transport<A>, A: Allocator + Copy>()
    ensures { EachLives T.answers AreForkConsistent }
{}

/// What sessions tell is so in the worlds of the lines of accepted views, as each reading of the run's texts tells it,
/// under the same premises: the answer of a command is what the command comes to in the world of the line of a view of
/// its user, over which the session signed, where that view's own operation is a look; or the command asks for an
/// operation there, which is the own one of a view over which the session signed, too, and the answer tells which of
/// its changes are void. So it is told of the operation that was finished first, by its number.
pub fn sessions_tell_worlds<T: Transport<A>, A: Allocator + Copy>()
    ensures { SessionsTellWorlds T.answers }
{}
