//! Streams of bytes both ways: in memory, and over TCP; reads that a signal may interrupt; and bytes that are written
//! whole.
#![tactic(auto)]

mod connection;
mod memory;
mod reading;
mod server_socket;
mod socket;
mod writing;

pub use connection::{Connection, ConnectionFault};
pub use memory::MemoryConnection;
pub use reading::read_some;
pub use server_socket::ServerSocket;
pub use socket::Socket;
pub use writing::{WriteFault, write_whole};
