//! The stream of a connection, and the sockets for datagrams.
ghost use Rattle.std.specs.Prelude.{◌≡◌, ◌≤◌, IfOk, IfErr, length, take};
ghost use Rattle.chpw_sockets.specs.Sending.{Mail, Brings, Sends};

use chpw_connections::Sender;
use mio::net::TcpStream;
use std::io::{self, Error, Read, Write};
use std::net::Shutdown;

/// The stream of a connection, which doesn't block.
pub trait Channel: Read + Write {
    /// Shuts its writing side. What is left to read stays.
    fn shut(&mut self)
        ensures left { Self.remaining self.new ≡ Self.remaining self.old };

    /// Its error, if it has failed; asking takes it.
    fn pending_error(&self) -> io::Result<Option<Error>>;
}

impl Channel for TcpStream {
    fn shut(&mut self) {
        let _ = self.shutdown(Shutdown::Write);
    }

    fn pending_error(&self) -> io::Result<Option<Error>> {
        self.take_error()
    }
}

/// The service's sockets for datagrams, which don't block.
pub trait DatagramChannel {
    /// The datagrams that they have left to give, the next first, each with its sender, if they are known.
    ghost left: { Self → Mail };

    /// Those that they were given to send, the first first, each with whom to, if they are known.
    ghost sent: { Self → Mail };

    /// Receives the next datagram: how many of its bytes are in the buffer, who sent it, and to which of the service's
    /// own addresses.
    fn receive(&mut self, buffer: &mut [u8]) -> io::Result<(usize, Sender)>
        ensures within { IfOk result (λ r. r.0 ≤ length buffer.new) }
        ensures came { IfOk result (λ r. Brings r.1 (take r.0 buffer.new) (length buffer.old) (left self.old) (left self.new)) }
        ensures nothing { IfErr result (λ _. left self.new ≡ left self.old) }
        ensures sent { sent self.new ≡ sent self.old };

    /// Sends a datagram to this sender, from the address that it sent to, as a whole or not at all.
    fn send(&mut self, bytes: &[u8], to: Sender) -> io::Result<usize>
        ensures sent { IfOk result (λ _. Sends to bytes.now (sent self.old) (sent self.new)) }
        ensures unsent { IfErr result (λ _. sent self.new ≡ sent self.old) }
        ensures left { left self.new ≡ left self.old };
}
