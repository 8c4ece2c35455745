//! Serving a stream over a table that one thread owns. Tests and programs of cases call it; no service does.
ghost use Rattle.std.specs.Prelude.{IfSome};
ghost use Rattle.chpw_serve.specs.Hearing.{HoldsNobody, NotesNothing};
ghost use Rattle.chpw_serve.specs.Serving.{stream_state, message_too_long, IsServed};
ghost use Rattle.chpw_serve.specs.declared.gate.NoGate.{NoGate};
ghost use Rattle.chpw_serve.specs.ServedAlone.{AnsweringAlone, AddsOneAlone, IsServedAlone};

use crate::draws::{Clock, Words};
use crate::gate::NoGate;
use crate::known::know_history;
use crate::messages::Messages;
use crate::serving::{Ended, serve_stream};
use chpw_decider::Alone;
use chpw_endpoints::Endpoints;
use chpw_table::JournalSink;
use std::alloc::Global;
use std::io::{Read, Write};

/// Serves a stream over a table that one thread owns. If the reader's bytes are known, the bytes written are the
/// replies to them, as the machine gives them from the table's state, with the moments and words drawn and the appends
/// that failed; after a write fault a beginning of those.
pub fn serve_alone<R: Read, W: Write, M: Messages, S: JournalSink, C: Clock, X: Words>(
    alloc: Global,
    service: &M,
    ends: Endpoints,
    reader: &mut R,
    writer: &mut W,
    alone: &mut Alone<S>,
    clock: &mut C,
    words: &mut X,
) -> Ended
    ensures served { (gate later : NoGate) × IsServed
        (AnsweringAlone HoldsNobody NotesNothing (M.error_frame service.now) (M.private_frame service.now)
        (M.opens service.now ends) ends.peer)
        (AddsOneAlone HoldsNobody NotesNothing (M.opens service.now ends) ends.peer)
        (λ now. M.error_frame service.now message_too_long now) C.gives X.gives HoldsNobody NotesNothing ends.peer result
        (stream_state (R.remaining reader.old) alone.old (W.contents writer.old) clock.old words.old gate)
        (stream_state (R.remaining reader.new) alone.new (W.contents writer.new) clock.new words.new later) }
    ensures replies { IfSome (R.remaining reader.old) (λ stream. (gate later : NoGate) × IsServedAlone
        (M.error_frame service.now) (M.private_frame service.now) (M.opens service.now ends)
        C.gives X.gives result stream
        (stream_state (R.remaining reader.old) alone.old (W.contents writer.old) clock.old words.old gate)
        (stream_state (R.remaining reader.new) alone.new (W.contents writer.new) clock.new words.new later)) }
{
    let ended = serve_stream(
        alloc,
        service,
        ends,
        reader,
        writer,
        alone,
        &mut NoGate,
        clock,
        words,
    );
    know_history(alone);
    ended
}
