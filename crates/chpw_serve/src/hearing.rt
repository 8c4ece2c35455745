//! What the observer hears of a decision.
ghost use Rattle.std.specs.Prelude.{◌≡◌, ◌<◌, IfOk, OnErr};
ghost use Rattle.chpw_table.specs.Times.{IsMoment};
ghost use Rattle.chpw_serve.specs.Trying.{IsVerdict, HearsVerdict, HearsLast, EndsWithVerdict};

use crate::answering::history_full;
use crate::deciding::{Decision, decide};
use crate::observer::Observer;
use chpw_decider::Decider;
use chpw_table::{Moment, Opened, Verdict};
use std::alloc::AllocError;
use std::net::IpAddr;

/// Decides, and the observer hears what came of it. None where the history is full.
pub(crate) fn decide_heard<D: Decider, O: Observer>(
    decider: &mut D,
    observer: &mut O,
    peer: IpAddr,
    now: Moment,
    opened: Opened,
    password: &[u8],
) -> Result<Option<Verdict>, AllocError>
    requires moment { IsMoment now }
    requires micros { now.micros < 1000000 }
    ensures verdict { IfOk result (λ v. IsVerdict (D.may_be_full decider.new (D.gathered decider.new))
        v password.now opened now (D.gathered decider.old) (D.gathered decider.new)) }
    ensures heard { IfOk result (λ v. HearsVerdict O.hears peer now (D.made decider.new)
        (D.gathered decider.new) password.now opened v observer.old observer.new) }
    ensures refused { OnErr result (D.gathered decider.new ≡ D.gathered decider.old) }
    ensures unheard { OnErr result (observer.new ≡ observer.old) }
    ensures follows { D.follows decider.old decider.new }
{
    match decide(decider, now, opened, password)? {
        Decision::Full(opened) => {
            observer.refused(peer, now, Some(&opened), &history_full());
            Ok(None)
        }
        Decision::Verdict(verdict) => {
            hear_decided(decider, observer, peer, now, verdict);
            Ok(Some(verdict))
        }
    }
}

/// The observer hears of the decision whose receipt the decider put last.
fn hear_decided<D: Decider, O: Observer>(
    decider: &D,
    observer: &mut O,
    peer: IpAddr,
    now: Moment,
    verdict: Verdict,
)
    requires moment { IsMoment now }
    requires micros { now.micros < 1000000 }
    requires last { EndsWithVerdict (D.gathered decider.now) now verdict }
    ensures heard { HearsLast O.hears peer now (D.made decider.now) (D.gathered decider.now)
        observer.old observer.new }
{
    let kvno = if verdict == Verdict::Done {
        decider.made_kvno()
    } else {
        None
    };
    match decider.receipts().last() {
        Some(receipt) => observer.decided(peer, now, receipt, kvno),
        None => unreachable!(),
    }
}
