//! A worker's turns at a desk.
ghost use Rattle.std.specs.Prelude.{◌≡◌, ◌++◌, ℕ, List, Option, Some, [], length, option_map};
ghost use Rattle.chpw_connection.specs.Messages.{IsPiece};
ghost use Rattle.chpw_serve.specs.Answering.{Answering, Unanswered};
ghost use Rattle.chpw_serve.specs.Serving.{stream_state, message_too_long, IsServed};
ghost use Rattle.chpw_serve.specs.declared.serving.Ended.{Ended};
ghost use Rattle.chpw_workers.specs.declared.inbox.WorkerTurn.{WorkerTurn as turn_spec};
ghost use Rattle.chpw_workers.specs.Replies.{IsKdcChange, IsReplyBehind, change_made_after, change_made_by, fills_at, password_in};
ghost use Rattle.chpw_workers.specs.Turns.{at, AreTurns, IsMessageTurn, IsToldTo, IsTurn, IsUpdated};
ghost use Rattle.chpw_connections.specs.Turns.{message_of, ends_of};

use crate::context::Context;
use crate::inbox::{Crew, Inbox, Task, WorkerTurn};
use crate::undecided::WithoutKdc;
use crate::updates::{FittingUpdate, KdcDecider, UpdateTurn};
use chpw_book::DeskUpdateFault;
use chpw_connections::{KdcChange, Reply, TakenMessage, Turn};
use chpw_decider::Decider;
use chpw_record::PrincipalKey;
use chpw_rules::Name;
use chpw_serve::{Clock, Ended, Gate, Messages, Observer, UpdateObserver, Words, serve_stream};
use chpw_table::{Body, Digest, Durability, Event, Opened, Receipt, Verdict};
use std::alloc::Global;
use std::sync::Wait;

/// What a worker has, whichever desk it is at: where its messages come from, who hears what came of them and may hold it, its
/// clock, and its random words, of which it draws each once.
#[derive(Drop)]
pub struct Worker<I, G, C, X> {
    pub inbox: I,
    pub gate: G,
    pub clock: C,
    pub words: X,
}

/// Does the tasks of a worker's inbox, until none will come any more, or it is to take none for now. The worker whose entry is the
/// last for which the history has room stops all of them.
#[tactic(auto, using(crate::proofs::ChainLemmas::turns_more, crate::proofs::ChainLemmas::turns_lift))]
pub(crate) fn work<
    R: Wait,
    M: Messages,
    K: KdcDecider,
    I: Inbox,
    G: Gate + Observer + UpdateObserver,
    C: Clock,
    X: Words,
    T: Crew,
>(rt: &R, context: &Context<'_, M, T>, decider: &mut K, worker: &mut Worker<I, G, C, X>)
    ensures turns { (turns : List turn_spec) × (I.turns worker.new.inbox ≡ I.turns worker.old.inbox ++ turns)
        × AreTurns C.gives X.gives (M.error_frame context.now.service.now) (M.private_frame context.now.service.now)
        (M.opens context.now.service.now) (K.may_be_full decider.new) (K.holds decider.new) context.now.has_kdc
        (at (K.gathered decider.old) worker.old.clock worker.old.words) turns
        (at (K.gathered decider.new) worker.new.clock worker.new.words) }
    ensures follows { K.follows decider.old decider.new }
{
    for _ in rt.forever() {
        let Some(task) = worker.inbox.next() else {
            return;
        };
        let turn = do_task(context, task, decider, worker);
        if fills(decider.receipts(), context.room) {
            context.crew.stop();
        }
        worker.inbox.answer(turn);
    }
}

// Does a task.
fn do_task<
    M: Messages,
    K: KdcDecider,
    I,
    G: Gate + Observer + UpdateObserver,
    C: Clock,
    X: Words,
    T,
>(
    context: &Context<'_, M, T>,
    task: Task,
    decider: &mut K,
    worker: &mut Worker<I, G, C, X>,
) -> WorkerTurn
    ensures turn { IsTurn C.gives X.gives (M.error_frame context.now.service.now) (M.private_frame context.now.service.now)
        (M.opens context.now.service.now) (K.may_be_full decider.new) (K.holds decider.new) context.now.has_kdc
        (at (K.gathered decider.old) worker.old.clock worker.old.words) result
        (at (K.gathered decider.new) worker.new.clock worker.new.words) }
    ensures follows { K.follows decider.old decider.new }
    ensures inbox { worker.new.inbox ≡ worker.old.inbox }
{
    match task {
        Task::Message(taken) => {
            let (alloc, service) = (context.alloc, context.service);
            let turn = take_turn(alloc, service, context.has_kdc, taken, decider, worker);
            WorkerTurn::Message(turn)
        }
        Task::Undecided(taken) => {
            let alloc = context.alloc;
            let service = WithoutKdc {
                messages: context.service,
            };
            let turn = take_turn(alloc, &service, context.has_kdc, taken, decider, worker);
            WorkerTurn::Undecided(turn)
        }
        Task::Update(update, durability) => {
            WorkerTurn::Update(take_update(update, durability, decider, worker))
        }
    }
}

// Answers a message.
fn take_turn<
    M: Messages,
    K: KdcDecider,
    I,
    G: Gate + Observer + UpdateObserver,
    C: Clock,
    X: Words,
>(
    alloc: Global,
    service: &M,
    has_kdc: bool,
    taken: TakenMessage,
    decider: &mut K,
    worker: &mut Worker<I, G, C, X>,
) -> Turn
    ensures turn { IsMessageTurn C.gives X.gives (M.error_frame service.now) (M.private_frame service.now)
        (M.opens service.now) (K.may_be_full decider.new) (K.holds decider.new) has_kdc result
        (at (K.gathered decider.old) worker.old.clock worker.old.words) (at (K.gathered decider.new) worker.new.clock worker.new.words) }
    ensures follows { K.follows decider.old decider.new }
    ensures inbox { worker.new.inbox ≡ worker.old.inbox }
{
    let before = decider.receipts().len();
    let reply = reply_to(alloc, service, &taken, decider, worker);
    let change = change_after(has_kdc, decider, before);
    Turn {
        taken,
        reply,
        change,
    }
}

// Decides what the KDC says of a principal.
fn take_update<K: KdcDecider, I, G: UpdateObserver, C: Clock, X>(
    update: FittingUpdate,
    durability: Durability,
    decider: &mut K,
    worker: &mut Worker<I, G, C, X>,
) -> UpdateTurn
    ensures updated { IsUpdated C.gives (K.holds decider.new) result
        (at (K.gathered decider.old) worker.old.clock worker.old.words) (at (K.gathered decider.new) worker.new.clock worker.new.words) }
    ensures heard { IsToldTo G.hears_update worker.old.gate result worker.new.gate }
    ensures follows { K.follows decider.old decider.new }
    ensures inbox { worker.new.inbox ≡ worker.old.inbox }
{
    let update = update.update();
    let now = worker.clock.now();
    let outcome = match update.clone() {
        Ok(copy) => decider.update(now, copy, durability),
        Err(_) => Err(DeskUpdateFault::Memory),
    };
    if let Ok(verdict) = outcome {
        worker.gate.updated(now, &update, verdict);
    }
    let newest = decider.newest_key(update.name());
    UpdateTurn {
        update,
        outcome,
        newest,
    }
}

// What is to be put into the KDC's database, if there is one, where the newest receipt is of a change and was not among the first
// `before`: that change's own key, whatever came in front of it meanwhile.
fn change_after<K: KdcDecider>(has_kdc: bool, decider: &K, before: usize) -> KdcChange
    ensures value { IsKdcChange (K.holds decider.now) has_kdc before (K.gathered decider.now) result }
{
    if !has_kdc {
        return KdcChange::Nothing;
    }
    let Some((name, digest)) = change_made(decider.receipts(), before) else {
        return KdcChange::Nothing;
    };
    let key = decider.made_key(name, digest);
    match (name.clone(), key) {
        (Ok(name), Some(key)) => KdcChange::Key(PrincipalKey { name, key }),
        _ => KdcChange::Lost,
    }
}

// The principal whose password the newest of these receipts changed, and the password's digest, if there are more than `before`.
fn change_made(receipts: &[Receipt], before: usize) -> Option<(&Name, &Digest)>
    ensures value { option_map (λ made. (made.0.now, made.1.now)) result ≡ change_made_after before receipts.now }
{
    match receipts.last() {
        Some(receipt) if receipts.len() > before => change_of(&receipt.entry.event),
        _ => None,
    }
}

// The principal whose password an event changed, and the password's digest.
fn change_of(event: &Event) -> Option<(&Name, &Digest)>
    ensures value { option_map (λ made. (made.0.now, made.1.now)) result ≡ change_made_by event.now }
{
    match event {
        Event::Ask {
            opened,
            verdict: Verdict::Done,
        } => password_of(opened),
        _ => None,
    }
}

// The principal whose password a request changes, and the password's digest.
fn password_of(opened: &Opened) -> Option<(&Name, &Digest)>
    ensures value { option_map (λ made. (made.0.now, made.1.now)) result ≡ password_in opened.now }
{
    match &opened.body {
        Body::Ask {
            target: Some(target),
            digest,
        } => Some((&target.name, digest)),
        Body::Ask {
            target: None,
            digest,
        } => Some((&opened.client, digest)),
        Body::BadPrivate | Body::BadData => None,
    }
}

// Whether the newest of these receipts is of the last entry for which there is room.
fn fills(receipts: &[Receipt], room: Option<u32>) -> bool
    ensures value { result ≡ fills_at receipts.now room }
{
    match (receipts.last(), room) {
        (Some(receipt), Some(room)) => u64::from(room) <= u64::from(receipt.position) + 1,
        _ => false,
    }
}

// Answers a message in memory, as a stream of this message alone. None if memory ran out.
fn reply_to<M: Messages, K: Decider, I, G: Gate + Observer + UpdateObserver, C: Clock, X: Words>(
    alloc: Global,
    service: &M,
    taken: &TakenMessage,
    decider: &mut K,
    worker: &mut Worker<I, G, C, X>,
) -> Option<Reply>
    ensures replied { (ended : Ended) × (bytes : List ℕ) × (left : Option (List ℕ))
        × IsServed (Answering (M.error_frame service.now) (M.private_frame service.now) K.may_be_full K.gathered K.follows K.made
        G.passes G.hears (M.opens service.now (ends_of taken.now)) (ends_of taken.now).peer)
        (Unanswered K.gathered K.follows K.made G.passes G.hears (M.opens service.now (ends_of taken.now)) (ends_of taken.now).peer)
        (λ now. M.error_frame service.now message_too_long now)
        C.gives X.gives G.passes G.hears (ends_of taken.now).peer ended
        (stream_state (Some (message_of taken.now)) decider.old (Some []) worker.old.clock worker.old.words worker.old.gate)
        (stream_state left decider.new (Some bytes) worker.new.clock worker.new.words worker.new.gate)
        × IsReplyBehind ended bytes result }
    ensures piece { IsPiece (message_of taken.now) }
    ensures inbox { worker.new.inbox ≡ worker.old.inbox }
{
    let mut left = taken.message();
    let mut bytes = Vec::new(alloc);
    let ended = serve_stream(
        alloc,
        service,
        taken.ends(),
        &mut left,
        &mut bytes,
        decider,
        &mut worker.gate,
        &mut worker.clock,
        &mut worker.words,
    );
    reply_of(ended, bytes)
}

// The reply to a message whose stream ended so. After a message that was too long the connection ends; a reply that
// isn't whole isn't sent.
fn reply_of(ended: Ended, bytes: Vec<u8>) -> Option<Reply>
    ensures value { IsReplyBehind ended bytes.items result }
{
    match ended {
        Ended::Input => Some(Reply {
            bytes,
            is_last: false,
        }),
        Ended::TooLong => Some(Reply {
            bytes,
            is_last: true,
        }),
        Ended::CutOff | Ended::ReadFault | Ended::WriteFault | Ended::Count | Ended::Memory => None,
    }
}
