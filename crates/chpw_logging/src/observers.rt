//! What hears what came of a worker's messages, and writes it into the log.
ghost use Rattle.std.specs.Prelude.{◌≡◌, ◌<◌};
ghost use Rattle.chpw_table.specs.Times.{IsMoment};
ghost use Rattle.chpw_serve.specs.Holding.{answer_in};
ghost use Rattle.chpw_serve.specs.InTurn.{InTurn};
ghost use Rattle.chpw_log.specs.Lines.{line_of};
ghost use Rattle.chpw_logging.specs.Noting.{Noted, opened as opened_line, limited, journal_failed, updated as update_told};
ghost use Rattle.chpw_logging.specs.Noting.{decided_line, failed_under, kind_of, noted_line, refused_line};

use chpw_log::{ClientAndTarget, HeldKind, Line, MessageEvent};
use chpw_serve::{Gate, Observer, Spot, UpdateObserver};
use chpw_table::{Event, KdcUpdate, Moment, Opened, Receipt, UpdateVerdict, Verdict};
use krb_protocol::Refusal;
use std::net::IpAddr;

/// Where the lines of a log go.
pub trait Lines {
    /// Taking this leads from the first state to the second.
    ghost takes: { Self → Noted → Self → Type 0 };

    /// The line of a message whose kind has no limit.
    fn put(&mut self, line: &Line<'_>)
        ensures taken { takes self.old (opened_line line.now.moment (line_of line.now)) self.new };

    /// The line of a message of this kind, which has a limit. It may be held back.
    fn put_limited(&mut self, kind: HeldKind, line: &Line<'_>)
        ensures taken { takes self.old (limited kind line.now.moment line.now.peer (line_of line.now)) self.new };

    /// The journal did not take a change, at this moment.
    fn tell_failed(&mut self, now: Moment)
        requires moment { IsMoment now }
        requires micros { now.micros < 1000000 }
        ensures taken { takes self.old (journal_failed now) self.new };

    /// The line of an update from the KDC that was decided at this moment.
    fn put_update(&mut self, now: Moment, update: &KdcUpdate, verdict: UpdateVerdict)
        requires moment { IsMoment now }
        requires micros { now.micros < 1000000 }
        ensures taken { takes self.old (update_told now update.now verdict) self.new };
}

/// Hears what comes of this worker's messages; a gate that holds nobody.
#[derive(Drop)]
pub struct Logging<L: Lines> {
    lines: L,
    worker: u8,
}

impl<L: Lines> Logging<L> {
    /// What writes the lines of this worker.
    pub fn new(lines: L, worker: u8) -> Logging<L>
        ensures lines { result.lines ≡ lines }
        ensures worker { result.worker ≡ worker }
    {
        Logging { lines, worker }
    }
}

impl<L: Lines> Gate for Logging<L> {
    ghost use Rattle.chpw_serve.specs.Hearing.{HoldsNobody};

    ghost passes = { HoldsNobody };

    fn at(&mut self, _spot: Spot) {}
}

impl<L: Lines> UpdateObserver for Logging<L> {
    ghost use Rattle.std.specs.Prelude.{◌≡◌};
    ghost use Rattle.chpw_logging.specs.Noting.{updated as update_noted};

    ghost hears_update = { λ a now update verdict b.
        (b.worker ≡ a.worker) × L.takes a.lines (update_noted now update verdict) b.lines };

    fn updated(&mut self, now: Moment, update: &KdcUpdate, verdict: UpdateVerdict) {
        self.lines.put_update(now, update, verdict);
    }
}

impl<L: Lines> Observer for Logging<L> {
    ghost use Rattle.std.specs.Prelude.{◌≡◌};
    ghost use Rattle.chpw_serve.specs.InTurn.{InTurn};
    ghost use Rattle.chpw_logging.specs.Noting.{noted};

    ghost hears = { λ a h b. (b.worker ≡ a.worker) × InTurn L.takes a.lines (noted a.worker h) b.lines };

    // A raise and an update from the KDC belong to no message.
    fn decided(&mut self, peer: IpAddr, now: Moment, receipt: &Receipt, kvno: Option<u32>) {
        if let Event::Ask { opened, verdict } = &receipt.entry.event {
            tell_failed(&mut self.lines, now, *verdict);
            let decision = Decision {
                opened,
                verdict: *verdict,
                kvno,
            };
            put_decided(&mut self.lines, self.worker, peer, now, &decision);
        }
    }

    fn refused(&mut self, peer: IpAddr, now: Moment, opened: Option<&Opened>, refusal: &Refusal) {
        match opened {
            Some(opened) => put_full(&mut self.lines, self.worker, peer, now, opened, refusal),
            None => self.lines.put_limited(
                HeldKind::Unopened,
                &Line {
                    moment: now,
                    worker: self.worker,
                    peer,
                    news: MessageEvent::Unopened { refusal },
                },
            ),
        }
    }
}

// Reports it if the journal did not take the change that was decided so.
fn tell_failed<L: Lines>(lines: &mut L, now: Moment, verdict: Verdict)
    requires moment { IsMoment now }
    requires micros { now.micros < 1000000 }
    ensures told { InTurn L.takes lines.old (failed_under now verdict) lines.new }
{
    if matches!(verdict, Verdict::Broken) {
        lines.tell_failed(now);
    }
}

// A request, its verdict, and the version of the keys that a change made.
#[derive(Clone, Copy, Drop)]
struct Decision<'a> {
    opened: &'a Opened,
    verdict: Verdict,
    kvno: Option<u32>,
}

// Writes the line of a decision.
fn put_decided<L: Lines>(
    lines: &mut L,
    worker: u8,
    peer: IpAddr,
    now: Moment,
    decision: &Decision<'_>,
)
    requires moment { IsMoment now }
    requires micros { now.micros < 1000000 }
    ensures taken { L.takes lines.old (noted_line (kind_of decision.now.verdict) now peer
        (decided_line worker peer now decision.now.opened.now decision.now.verdict decision.now.kvno)) lines.new }
{
    let line = Line {
        moment: now,
        worker,
        peer,
        news: MessageEvent::Decided {
            asked: ClientAndTarget::of(decision.opened),
            verdict: decision.verdict,
            kvno: decision.kvno,
        },
    };
    match kind_of(decision.verdict) {
        Some(kind) => lines.put_limited(kind, &line),
        None => lines.put(&line),
    }
}

// The kind of a request that was decided so, if its lines are limited: anybody can have a message that was recorded
// answered so, as often as they like.
fn kind_of(verdict: Verdict) -> Option<HeldKind>
    ensures value { result ≡ kind_of verdict }
{
    match verdict {
        Verdict::Skew => Some(HeldKind::Skewed),
        Verdict::Replay => Some(HeldKind::Replayed),
        _ => None,
    }
}

// Writes the line of a request that came to a full history.
fn put_full<L: Lines>(
    lines: &mut L,
    worker: u8,
    peer: IpAddr,
    now: Moment,
    opened: &Opened,
    refusal: &Refusal,
)
    requires moment { IsMoment now }
    requires micros { now.micros < 1000000 }
    ensures taken { L.takes lines.old (opened_line now (refused_line worker peer now opened.now (answer_in refusal.now))) lines.new }
{
    lines.put(&Line {
        moment: now,
        worker,
        peer,
        news: MessageEvent::Full {
            asked: ClientAndTarget::of(opened),
            refusal,
        },
    });
}
