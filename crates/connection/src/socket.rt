//! Connections over TCP.

ghost use Rattle.std.specs.Prelude.{◌≤◌, None};
ghost use Rattle.leaf_ledger.specs.Device.{HasRisen};

use crate::connection::{Connection, ConnectionFault, fault};
use crate::reading::read_some;
use std::io::{self, Write};
use std::net::TcpStream;
use std::time::Duration;

/// How long a read or a write waits for the other side, in seconds.
const PATIENCE: u64 = 60;

/// A stream over TCP. It doesn't tell its bytes: no clause says what a socket holds or delivers. That the other side
/// sends nothing for a minute, or takes nothing that is sent to it, counts as a fault.
#[derive(Drop)]
pub struct Socket {
    stream: TcpStream,
    ended: bool,
    faults: u64,
}

impl Socket {
    /// A stream from which nothing was read and to which nothing was written. An error where it takes no time limit.
    pub fn new(stream: TcpStream) -> io::Result<Socket> {
        let limit = Some(Duration::from_secs(PATIENCE));
        stream.set_read_timeout(limit)?;
        stream.set_write_timeout(limit)?;
        Ok(Socket {
            stream,
            ended: false,
            faults: 0,
        })
    }
}

impl Connection for Socket {
    ghost told = { λ _. None };

    ghost is_at_end = { λ s. s.ended };

    ghost fault_count = { λ s. s.faults };

    fn read(&mut self, buffer: &mut [u8]) -> Result<usize, ConnectionFault> {
        match read_some(&mut self.stream, buffer) {
            Ok(count) => {
                self.ended = count == 0;
                Ok(count)
            }
            Err(_) => Err(fault(&mut self.faults)),
        }
    }

    fn write(&mut self, bytes: &[u8]) -> Result<(), ConnectionFault> {
        match self.stream.write_all(bytes) {
            Ok(()) => Ok(()),
            Err(_) => Err(fault(&mut self.faults)),
        }
    }

    fn faults(&self) -> u64 {
        self.faults
    }
}
