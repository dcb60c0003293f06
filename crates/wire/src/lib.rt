//! What a client and the server say to each other: frames, each a body after its length.
#![tactic(auto)]

mod frames;
mod kinds;
mod laws;
mod stream;

pub use frames::{BODY_LIMIT, body_of, reply_frame, reply_of, request_frame, request_of};
pub use kinds::{RequestKind, Status};
pub use laws::streams_are_cut_anyhow;
pub use stream::{FrameError, Frames};
