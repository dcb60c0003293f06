//! What carries a request to the server, and the body of its reply back: over a stream of bytes, in frames.
#![tactic(auto)]

mod connecting;
mod framed;
mod line;
mod transport;

pub use connecting::{Connect, Connecting};
pub use framed::Framed;
pub use transport::{Ahead, Request, Transport, TransportError};
