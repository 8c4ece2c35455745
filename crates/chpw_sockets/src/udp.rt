//! The socket for datagrams, and those that are being answered.
ghost use Rattle.std.specs.Prelude.{◌≡◌, ◌≢◌, ◌≤◌, ◌<◌, ◌↔◌, [], IfErr, IfOk, IfSome, None, IsTrue, is_some, true, false, length, take};
ghost use Rattle.slab.specs.Slab.{get};
ghost use Rattle.chpw_connections.specs.Held.{slots_of, bounds_of};
ghost use Rattle.chpw_connections.specs.Queues.{workers_of};
ghost use Rattle.chpw_slots.specs.Slots.{Happens};
ghost use Rattle.chpw_connection.specs.Slot.{left_at};
ghost use Rattle.chpw_connection.specs.Stages.{closed};
ghost use Rattle.chpw_connection.specs.declared.todo.Todo.TheVariants as todo;
ghost use Rattle.chpw_transfers.specs.Datagrams.{in_datagram};
ghost use Rattle.chpw_sockets.specs.Deciding.{is_same_datagram, IsUnanswered, KeepsReply};
ghost use Rattle.chpw_sockets.specs.Places.{reads_on};
ghost use Rattle.chpw_sockets.specs.Faults.{IsUnmade};
ghost use Rattle.chpw_sockets.specs.Replying.{post_of, post_at, IsReceived, Posts, PostsFor, Replies, Resends};
ghost use Rattle.chpw_transfers.specs.Steps.{IsCalled, Steps, Writes, untold};
ghost use Rattle.chpw_transfers.specs.Transfers.{is_sent, ComesOfSend};
ghost use Rattle.chpw_transfers.specs.declared.state.Progress.TheVariants as progress;

use crate::channel::DatagramChannel;
use crate::own_sockets::OwnSockets;
use crate::pool_fault::PoolFault;
use chpw_connections::{AnswerCache, Sender, Todo, is_answerable};
use chpw_transfers::{Progress, State, Transfer, reply_of_datagram};
use mio::Registry;
use std::alloc::{AllocError, Global};
use std::net::UdpSocket;
use std::{io, mem};

/// How many bytes the longest datagram over IPv4 has. One over IPv6 may have 20 more; it is longer than any message
/// that is answered.
pub(crate) const LONGEST: usize = 65_507;

/// A datagram that is being answered.
#[derive(Drop)]
pub struct Datagram {
    pub sender: Sender,
    pub message: Vec<u8>,
}

impl Datagram {
    /// Whether it is this message of this sender.
    pub fn is(&self, sender: Sender, message: &[u8]) -> bool
        ensures value { result ≡ is_same_datagram sender message.now self.now }
    {
        self.sender.is_same(&sender) && self.message.as_slice() == message
    }

    /// Does what is to be done for its connection: its reply is sent, in one call of the socket for datagrams, and then
    /// the connection ends, for which no more comes.
    pub fn step<D: DatagramChannel>(
        &mut self,
        datagrams: &mut Option<Datagrams<D>>,
        state: &mut State,
        slot: usize,
        due: Todo,
        now: u64,
    ) -> Progress
        ensures steps { due ≢ todo.Close → Steps (bounds_of state.old.connections) now due untold untold
            (slots_of state.old.connections) (slots_of state.new.connections) slot }
        ensures posted { PostsFor due now self.old (post_at D.left D.sent datagrams.old) (post_at D.left D.sent datagrams.new)
            (slots_of state.old.connections) (slots_of state.new.connections) slot }
        ensures ended { reads_on due ≡ true → (result ≡ progress.Moved)
            × Happens 0 (slots_of state.old.connections) (slots_of state.new.connections) slot closed }
        ensures idle { result ≡ progress.Idle → slots_of state.new.connections ≡ slots_of state.old.connections }
        ensures waits { due ≡ todo.Wait → result ≡ progress.Idle }
        ensures sender { self.new.sender ≡ self.old.sender }
        ensures socket { is_some datagrams.new ≡ is_some datagrams.old }
        ensures queued { IsCalled (workers_of state.old.connections) (get (slots_of state.new.connections) slot) result }
        ensures bounds { bounds_of state.new.connections ≡ bounds_of state.old.connections }
        ensures kdc { state.new.kdc ≡ state.old.kdc }
    {
        match (due, datagrams) {
            (Todo::Write, Some(datagrams)) => datagrams.reply(state, slot, self, now),
            (Todo::Read(_) | Todo::Linger, _) => state.end_input(slot),
            _ => Progress::Idle,
        }
    }
}

/// Sockets for datagrams, their port, and the realm whose tickets they answer.
#[derive(Drop)]
pub struct DatagramSockets {
    pub sockets: Vec<UdpSocket>,
    pub port: u16,
    pub realm: Vec<u8>,
}

/// The sockets for datagrams, and what they have answered.
#[derive(Drop)]
pub struct Datagrams<D> {
    pub alloc: Global,
    socket: D,
    // Their own port.
    port: u16,
    // The service's realm.
    realm: Vec<u8>,
    answered: AnswerCache,
}

impl Datagrams<OwnSockets> {
    /// Nothing has been answered at these sockets yet, which are made non-blocking and watched.
    pub fn new(
        alloc: Global,
        sockets: DatagramSockets,
        registry: &Registry,
    ) -> Result<Datagrams<OwnSockets>, PoolFault>
        ensures fault { IfErr result IsUnmade }
        ensures none { IfOk result (λ d. d.answered ≡ []) }
        ensures realm { IfOk result (λ d. d.realm ≡ sockets.realm) }
        ensures port { IfOk result (λ d. d.port ≡ sockets.port) }
    {
        let DatagramSockets {
            sockets,
            port,
            realm,
        } = sockets;
        let Ok(answered) = AnswerCache::new(alloc) else {
            return Err(PoolFault::Memory);
        };
        match OwnSockets::watch(alloc, sockets, registry) {
            Err(_) => Err(PoolFault::Accept),
            Ok(socket) => Ok(Datagrams {
                alloc,
                socket,
                port,
                realm,
                answered,
            }),
        }
    }
}

impl<D: DatagramChannel> Datagrams<D> {
    /// The next datagram: its sender, who is where it came from, and its bytes in the buffer.
    pub fn receive<'a>(&mut self, buffer: &'a mut [u8]) -> io::Result<(Sender, &'a [u8])>
        ensures received { IfOk result (λ r. IsReceived r.0 r.1.now (length buffer.old) (D.left self.old.socket) (D.left self.new.socket)) }
        ensures nothing { IfErr result (λ _. D.left self.new.socket ≡ D.left self.old.socket) }
        ensures sent { D.sent self.new.socket ≡ D.sent self.old.socket }
        ensures rest { self.new ≡ record self.old { socket = self.new.socket } }
    {
        let (count, sender) = self.socket.receive(buffer)?;
        Ok((sender, &buffer[..count]))
    }

    /// Whether a datagram is to be answered and wasn't less than five seconds ago; one that was gets that reply again.
    /// An error means that there is no memory to read its AP-REQ.
    pub fn is_to_be_decided(
        &mut self,
        sender: Sender,
        message: &[u8],
        now: u64,
    ) -> Result<bool, AllocError>
        ensures decided { IfOk result (λ decided. IsTrue decided ↔ IsUnanswered self.old sender message.now now) }
        ensures again { Resends self.old sender message.now now (D.sent self.old.socket) (D.sent self.new.socket) }
        ensures left { D.left self.new.socket ≡ D.left self.old.socket }
        ensures rest { self.new ≡ record self.old { socket = self.new.socket } }
    {
        if !is_answerable(
            self.alloc,
            sender,
            self.port,
            self.realm.as_slice(),
            message,
        )? {
            return Ok(false);
        }
        match self.answered.find(sender, message, now) {
            None => Ok(true),
            Some(reply) => {
                let _ = send_reply(&mut self.socket, sender, message, reply);
                Ok(false)
            }
        }
    }

    /// Sends a connection's reply as a whole to the sender of its datagram, and keeps it. If the socket would block,
    /// nothing happens.
    pub fn reply(
        &mut self,
        state: &mut State,
        slot: usize,
        datagram: &mut Datagram,
        now: u64,
    ) -> Progress
        ensures written { Writes now untold untold (slots_of state.old.connections) (slots_of state.new.connections) slot }
        ensures posted { Posts now datagram.old (post_of D.left D.sent self.old) (post_of D.left D.sent self.new)
            (slots_of state.old.connections) (slots_of state.new.connections) slot }
        ensures kept { KeepsReply self.old.answered self.new.answered datagram.old.sender datagram.old.message.items
            (left_at (get (slots_of state.old.connections) slot)) now }
        ensures blocked { result ≡ progress.Idle → (self.new ≡ record self.old { socket = self.new.socket })
            × ((post_of D.left D.sent self.new ≡ post_of D.left D.sent self.old) × (slots_of state.new.connections ≡ slots_of state.old.connections)) }
        ensures whole { result ≡ progress.Idle → datagram.new ≡ datagram.old }
        ensures sender { datagram.new.sender ≡ datagram.old.sender }
        ensures queued { IsCalled (workers_of state.old.connections) (get (slots_of state.new.connections) slot) result }
        ensures bounds { bounds_of state.new.connections ≡ bounds_of state.old.connections }
        ensures kdc { state.new.kdc ≡ state.old.kdc }
    {
        let reply = state.connections.pending_output(slot);
        let request = datagram.message.as_slice();
        let sent = Transfer::of(send_reply(&mut self.socket, datagram.sender, request, reply));
        self.note_sent(state, slot, datagram, sent, now)
    }

    // The send of a connection's reply did this.
    fn note_sent(
        &mut self,
        state: &mut State,
        slot: usize,
        datagram: &mut Datagram,
        sent: Transfer,
        now: u64,
    ) -> Progress
        ensures comes { ComesOfSend sent now (slots_of state.old.connections) (slots_of state.new.connections) slot result }
        ensures kept { KeepsReply self.old.answered self.new.answered datagram.old.sender datagram.old.message.items
            (left_at (get (slots_of state.old.connections) slot)) now }
        ensures unsent { is_sent sent ≡ false → (self.new ≡ self.old) × (datagram.new ≡ datagram.old) }
        ensures rest { self.new ≡ record self.old { answered = self.new.answered } }
        ensures sender { datagram.new.sender ≡ datagram.old.sender }
        ensures bounds { bounds_of state.new.connections ≡ bounds_of state.old.connections }
        ensures kdc { state.new.kdc ≡ state.old.kdc }
    {
        match sent {
            Transfer::Bytes(_) | Transfer::End => {
                let reply = state.connections.pending_output(slot);
                self.keep(datagram, reply, now);
                state.wrote_all(slot, now)
            }
            Transfer::Later => Progress::Idle,
            Transfer::Again => Progress::Moved,
            Transfer::Fault => {
                state.connections.fail(slot);
                Progress::Moved
            }
        }
    }

    // Keeps a reply that was sent; without memory for it, it isn't kept.
    fn keep(&mut self, datagram: &mut Datagram, reply: &[u8], now: u64)
        ensures kept { KeepsReply self.old.answered self.new.answered datagram.old.sender datagram.old.message.items reply.now now }
        ensures rest { self.new ≡ record self.old { answered = self.new.answered } }
        ensures sender { datagram.new.sender ≡ datagram.old.sender }
    {
        if let Ok(reply) = Vec::from_slice(self.alloc, reply) {
            let message = mem::replace(&mut datagram.message, Vec::new(self.alloc));
            self.answered.keep(datagram.sender, message, reply, now);
        }
    }
}

// Sends the reply to a message, without its length, to the sender. One that isn't to be sent counts as sent: for who
// waits for it, it is as one that was lost on its way.
fn send_reply<D: DatagramChannel>(
    socket: &mut D,
    sender: Sender,
    message: &[u8],
    reply: &[u8],
) -> io::Result<usize>
    ensures sent { IfOk result (λ _. Replies sender message.now reply.now (D.sent socket.old) (D.sent socket.new)) }
    ensures unsent { IfErr result (λ _. D.sent socket.new ≡ D.sent socket.old) }
    ensures left { D.left socket.new ≡ D.left socket.old }
{
    match sendable(message, reply) {
        None => Ok(0),
        Some(bytes) => socket.send(bytes, sender),
    }
}

// A reply as a datagram, without its length; none if it is longer than its request, so that nobody gets more from this
// service than somebody has sent in his name.
fn sendable<'a>(request: &[u8], reply: &'a [u8]) -> Option<&'a [u8]>
    ensures bytes { IfSome result (λ bytes. bytes.now ≡ in_datagram reply.now) }
    ensures no_longer { IfSome result (λ bytes. length bytes.now ≤ length request.now) }
    ensures none { result ≡ None → length request.now < length (in_datagram reply.now) }
{
    let bytes = reply_of_datagram(reply);
    if bytes.len() > request.len() {
        return None;
    }
    Some(bytes)
}
