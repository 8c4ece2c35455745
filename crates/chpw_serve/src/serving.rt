//! Serving a stream.
ghost use Rattle.std.specs.Prelude.{◌≡◌};
ghost use Rattle.chpw_serve.specs.Answering.{Answering, Unanswered};
ghost use Rattle.chpw_serve.specs.Holding.{answer_in};
ghost use Rattle.chpw_serve.specs.Serving.{stream_state, message_too_long, IsServed, IsRefused, Passes};

use crate::answering::answer_message;
use crate::draws::{Clock, Words, draw};
use crate::gate::{Gate, Spot};
use crate::messages::Messages;
use crate::observer::Observer;
use chpw_decider::Decider;
use chpw_endpoints::Endpoints;
use chpw_frame::{TcpOutcome, read_tcp, write_tcp};
use krb_protocol::Refusal;
use krb_protocol::codes::{KRB_ERR_FIELD_TOOLONG, KRB5_KPASSWD_MALFORMED};
use std::alloc::Global;
use std::io::{Read, Write};
use std::net::IpAddr;

/// The most messages of one stream.
pub const MAX_MESSAGES: u32 = 65_536;

/// Why a stream is no longer served.
#[derive(Clone, Copy, Drop)]
pub enum Ended {
    /// The input ended between messages.
    Input,
    /// It ended within a message or its length.
    CutOff,
    /// A message was too long; it was answered.
    TooLong,
    /// A read failed, or one message took too many.
    ReadFault,
    /// A write failed.
    WriteFault,
    /// 65,536 messages were answered.
    Count,
    /// A growth was refused. A decision may have been made whose reply was not written.
    Memory,
}

/// Answers the messages of a stream in order, and writes each reply before the next message is read. The moment and the
/// nine words of a message are drawn after it was read. `ends` are its two addresses.
#[tactic(auto, using(crate::proofs::ServingLemmas::so_far_start, crate::proofs::ServingLemmas::so_far_counted))]
pub fn serve_stream<
    R: Read,
    W: Write,
    M: Messages,
    D: Decider,
    G: Gate + Observer,
    C: Clock,
    X: Words,
>(
    alloc: Global,
    service: &M,
    ends: Endpoints,
    reader: &mut R,
    writer: &mut W,
    decider: &mut D,
    gate: &mut G,
    clock: &mut C,
    words: &mut X,
) -> Ended
    ensures served { IsServed (Answering (M.error_frame service.now) (M.private_frame service.now) D.may_be_full
        D.gathered D.follows D.made G.passes G.hears (M.opens service.now ends) ends.peer)
        (Unanswered D.gathered D.follows D.made G.passes G.hears (M.opens service.now ends) ends.peer)
        (λ now. M.error_frame service.now message_too_long now) C.gives X.gives G.passes G.hears ends.peer result
        (stream_state (R.remaining reader.old) decider.old (W.contents writer.old) clock.old words.old gate.old)
        (stream_state (R.remaining reader.new) decider.new (W.contents writer.new) clock.new words.new gate.new) }
{
    let mut served = 0;
    while served < MAX_MESSAGES {
        let message = match read_tcp(alloc, reader) {
            Err(_) => return Ended::Memory,
            Ok(TcpOutcome::Ended) => return Ended::Input,
            Ok(TcpOutcome::CutOff) => return Ended::CutOff,
            Ok(TcpOutcome::ReadFault) => return Ended::ReadFault,
            Ok(TcpOutcome::TooLong) => {
                return refuse(alloc, service, ends.peer, writer, gate, clock, words);
            }
            Ok(TcpOutcome::Message(message)) => message,
        };
        let drawn = draw(clock, words);
        let answer = match answer_message(alloc, service, ends, &message, decider, gate, drawn) {
            Err(_) => return Ended::Memory,
            Ok(answer) => answer,
        };
        match write_tcp(writer, &answer.bytes) {
            Err(_) => return Ended::WriteFault,
            Ok(()) => pass_answered(gate, answer.opened),
        }
        served += 1;
    }
    Ended::Count
}

/// Passes the gate if the message opened.
fn pass_answered<G: Gate>(gate: &mut G, opened: bool)
    ensures passed { Passes G.passes opened gate.old gate.new }
{
    if opened {
        gate.at(Spot::Answered);
    }
}

/// Answers a message whose length is too long.
fn refuse<W: Write, M: Messages, O: Observer, C: Clock, X: Words>(
    alloc: Global,
    service: &M,
    peer: IpAddr,
    writer: &mut W,
    observer: &mut O,
    clock: &mut C,
    words: &mut X,
) -> Ended
    ensures end { IsRefused (λ now. M.error_frame service.now message_too_long now) C.gives X.gives O.hears peer result
        (record { out = W.contents writer.old; clock = clock.old; words = words.old; gate = observer.old })
        (record { out = W.contents writer.new; clock = clock.new; words = words.new; gate = observer.new }) }
{
    let drawn = draw(clock, words);
    observer.refused(peer, drawn.now, None, &too_long());
    match service.make_error(alloc, too_long(), drawn.now) {
        Err(_) => Ended::Memory,
        Ok(reply) => match write_tcp(writer, &reply) {
            Err(_) => Ended::WriteFault,
            Ok(()) => Ended::TooLong,
        },
    }
}

/// The answer to a message that is too long.
fn too_long() -> Refusal
    ensures value { answer_in result ≡ message_too_long }
{
    Refusal {
        code: KRB5_KPASSWD_MALFORMED,
        error: KRB_ERR_FIELD_TOOLONG,
        text: "message too long",
    }
}
