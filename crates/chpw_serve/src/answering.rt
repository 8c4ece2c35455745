//! The answer to one message.
ghost use Rattle.std.specs.Prelude.{◌≡◌, ◌≤◌, ◌<◌, Bool, length, IfOk, OnErr};
ghost use Rattle.chpw_table.specs.Times.{IsMoment};
ghost use Rattle.chpw_serve.specs.Holding.{IsReplyTime, answer_in};
ghost use Rattle.chpw_serve.specs.Answers.{history_full as full_answer, reply as reply_to};
ghost use Rattle.chpw_serve.specs.Answering.{Answering, Unanswered};

use crate::completing::derive_wanted;
use crate::draws::Drawing;
use crate::gate::{Gate, Spot};
use crate::hearing::decide_heard;
use crate::messages::{Messages, OpenRequest, OpenResult, Seal};
use crate::observer::Observer;
use chpw_decider::Decider;
use chpw_endpoints::Endpoints;
use chpw_table::{Moment, Verdict};
use krb_protocol::Refusal;
use krb_protocol::codes::{KRB_ERR_GENERIC, KRB5_KPASSWD_HARDERROR};
use std::alloc::{AllocError, Global};

/// A reply, and whether its message opened.
#[derive(Drop)]
pub struct MessageReply {
    pub bytes: Vec<u8>,
    pub opened: bool,
}

/// The reply to a message that came over these addresses. Its request is judged at the moment `now`, whose seconds
/// are 0 to `chpw_table::LAST_SECOND`, and microseconds below 1,000,000; the words make its confounders and its
/// sequence number. The observer hears what came of it.
/// After `AllocError` there may be a receipt more, of this message's request, of which the observer heard.
pub fn answer<M: Messages, D: Decider, G: Gate + Observer>(
    alloc: Global,
    service: &M,
    ends: Endpoints,
    message: &[u8],
    decider: &mut D,
    gate: &mut G,
    words: [u32; 9],
    now: Moment,
) -> Result<Vec<u8>, AllocError>
    requires moment { IsMoment now }
    requires micros { now.micros < 1000000 }
    ensures answers { IfOk result (λ bytes. (is_open : Bool)
        × Answering (M.error_frame service.now) (M.private_frame service.now) D.may_be_full D.gathered
        D.follows D.made G.passes G.hears (M.opens service.now ends) ends.peer
        message.now words now decider.old decider.new gate.old gate.new bytes.items is_open) }
    ensures refused { OnErr result (Unanswered D.gathered D.follows D.made G.passes G.hears
        (M.opens service.now ends) ends.peer message.now now decider.old decider.new gate.old gate.new) }
{
    let drawn = Drawing { now, words };
    let answer = answer_message(alloc, service, ends, message, decider, gate, drawn)?;
    Ok(answer.bytes)
}

/// As `answer`, with whether the message opened.
pub fn answer_message<M: Messages, D: Decider, G: Gate + Observer>(
    alloc: Global,
    service: &M,
    ends: Endpoints,
    message: &[u8],
    decider: &mut D,
    gate: &mut G,
    drawn: Drawing,
) -> Result<MessageReply, AllocError>
    ensures answers { IfOk result (λ a.
        Answering (M.error_frame service.now) (M.private_frame service.now) D.may_be_full D.gathered
        D.follows D.made G.passes G.hears (M.opens service.now ends) ends.peer
        message.now drawn.words drawn.now decider.old decider.new gate.old gate.new a.bytes.items a.opened) }
    ensures refused { OnErr result (Unanswered D.gathered D.follows D.made G.passes G.hears
        (M.opens service.now ends) ends.peer message.now drawn.now decider.old decider.new gate.old gate.new) }
{
    let request = match service.open(alloc, ends, message)? {
        OpenResult::Opened(request) => request,
        OpenResult::Refused(refusal) => {
            gate.refused(ends.peer, drawn.now, None, &refusal);
            let bytes = service.make_error(alloc, refusal, drawn.now)?;
            return Ok(MessageReply {
                bytes,
                opened: false,
            });
        }
    };
    let OpenRequest {
        opened,
        password,
        seal,
    } = request;
    let ready = derive_wanted(
        service.realm(),
        decider,
        drawn.now,
        opened,
        password.as_slice(),
    )?;
    gate.at(Spot::Opened);
    let verdict = decide_heard(
        decider,
        gate,
        ends.peer,
        drawn.now,
        ready,
        password.as_slice(),
    )?;
    let bytes = match verdict {
        None => service.make_error(alloc, history_full(), drawn.now)?,
        Some(verdict) => reply(alloc, service, &seal, verdict, drawn)?,
    };
    Ok(MessageReply {
        bytes,
        opened: true,
    })
}

/// The answer when the history is full.
pub(crate) fn history_full() -> Refusal
    ensures value { answer_in result ≡ full_answer }
{
    Refusal {
        code: KRB5_KPASSWD_HARDERROR,
        error: KRB_ERR_GENERIC,
        text: "history full",
    }
}

/// The reply with this verdict.
#[tactic(auto, using(crate::proofs::TextLemmas::short_text))]
fn reply<M: Messages>(
    alloc: Global,
    service: &M,
    seal: &Seal,
    verdict: Verdict,
    drawn: Drawing,
) -> Result<Vec<u8>, AllocError>
    requires times { IsReplyTime seal.now }
    ensures reply { IfOk result (λ bytes. bytes.items
        ≡ reply_to (M.error_frame service.now) (M.private_frame service.now) seal.now verdict drawn.words drawn.now) }
    ensures fits { IfOk result (λ bytes. length bytes.items ≤ 65535) }
{
    match verdict.error() {
        None => service.make_private(alloc, seal, verdict.code(), verdict.text(), drawn.words),
        Some(error) => {
            let refusal = Refusal {
                code: verdict.code(),
                error,
                text: verdict.text(),
            };
            service.make_error(alloc, refusal, drawn.now)
        }
    }
}
