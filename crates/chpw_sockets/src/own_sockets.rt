//! The system's sockets for datagrams.
ghost use Rattle.std.specs.Prelude.{◌≡◌, ◌≤◌, IfOk, None, length};
ghost use Rattle.chpw_sockets.specs.Addresses.{IsAddressOf, sender_in};

use crate::channel::DatagramChannel;
use chpw_connections::Sender;
use chpw_endpoints::Endpoints;
use chpw_transfers::{DATAGRAMS, slot_at_turn};
use mio::net::UdpSocket;
use mio::{Interest, Registry};
use std::alloc::Global;
use std::io::{self, Error, ErrorKind};
use std::net::{self, IpAddr, SocketAddr};

/// A socket, and the address that it is bound to.
#[derive(Drop)]
struct OwnSocket {
    socket: UdpSocket,
    local: IpAddr,
}

/// Sockets for datagrams, each bound to an address of its own.
#[derive(Drop)]
pub struct OwnSockets {
    sockets: Vec<OwnSocket>,
    // The one that is asked first for the next datagram: each in its turn, so that none has to wait until no more come at
    // another one.
    first: usize,
}

impl OwnSockets {
    /// These sockets, which are made non-blocking and watched.
    pub fn watch(
        alloc: Global,
        sockets: Vec<net::UdpSocket>,
        registry: &Registry,
    ) -> io::Result<OwnSockets> {
        let mut watched = Vec::with_capacity(alloc, sockets.len())?;
        for socket in sockets {
            watched.push(watch(socket, registry)?)?;
        }
        Ok(OwnSockets {
            sockets: watched,
            first: 0,
        })
    }

    // Receives from the first of these that has a datagram; otherwise what the last one had to say.
    fn receive_in_turn(&self, buffer: &mut [u8]) -> io::Result<(usize, Sender)>
        ensures within { IfOk result (λ r. r.0 ≤ length buffer.new) }
    {
        let count = self.sockets.len();
        let mut fault = Error::from(ErrorKind::WouldBlock);
        for turn in 0..count {
            let Some(own) = self.sockets.get(slot_at_turn(self.first, count, turn)) else {
                continue;
            };
            match own.socket.recv_from(buffer) {
                Ok((length, from)) => return Ok((length, sender_of(own.local, from))),
                Err(error) if error.kind() == ErrorKind::WouldBlock => {}
                Err(error) => fault = error,
            }
        }
        Err(fault)
    }
}

impl DatagramChannel for OwnSockets {
    // Nothing is known of what the system brings and takes.
    ghost left = { λ sockets. None };

    ghost sent = { λ sockets. None };

    fn receive(&mut self, buffer: &mut [u8]) -> io::Result<(usize, Sender)> {
        let received = self.receive_in_turn(buffer);
        self.first = slot_at_turn(self.first, self.sockets.len(), 1);
        received
    }

    fn send(&mut self, bytes: &[u8], to: Sender) -> io::Result<usize> {
        match self.sockets.iter().find(|own| own.local == to.ends.local) {
            Some(own) => own.socket.send_to(bytes, address_of(to)),
            None => Err(Error::from(ErrorKind::AddrNotAvailable)),
        }
    }
}

// A socket, watched, and the address that it is bound to.
fn watch(socket: net::UdpSocket, registry: &Registry) -> io::Result<OwnSocket> {
    socket.set_nonblocking(true)?;
    let local = socket.local_addr()?.ip();
    let mut socket = UdpSocket::from_std(socket);
    registry.register(&mut socket, DATAGRAMS, Interest::READABLE)?;
    Ok(OwnSocket { socket, local })
}

// The sender at this address, who sent to that of the socket.
fn sender_of(local: IpAddr, from: SocketAddr) -> Sender
    ensures value { result ≡ sender_in local from }
{
    Sender {
        ends: Endpoints {
            peer: from.ip(),
            local,
        },
        port: from.port(),
    }
}

// The address of a sender.
fn address_of(sender: Sender) -> SocketAddr
    ensures value { IsAddressOf sender result }
    ensures back { sender_in sender.ends.local result ≡ sender }
{
    SocketAddr::new(sender.ends.peer, sender.port)
}
