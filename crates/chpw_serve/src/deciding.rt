//! Deciding a request, with keys derived as they are needed.
ghost use Rattle.std.specs.Prelude.{◌≡◌, IfOk, OnErr};
ghost use Rattle.chpw_table.specs.Times.{IsMoment};
ghost use Rattle.chpw_serve.specs.Trying.{IsTry, IsDecision};

use crate::completing::derive_more;
use chpw_decider::Decider;
use chpw_table::{DecideFault, Moment, Opened, Refused, Verdict};
use std::alloc::AllocError;

/// How often a decision is asked for before the decider derives the keys itself.
const TRIES: u32 = 3;

/// The result of a request.
#[derive(Drop)]
pub(crate) enum Decision {
    Verdict(Verdict),
    /// The history is full, and this is the request.
    Full(Opened),
}

/// The result of one try.
#[derive(Drop)]
enum Try {
    Verdict(Verdict),
    Full(Opened),
    /// Keys were missing, and are derived now.
    Again(Opened),
}

/// Decides, deriving further keys as they are needed; after the third time the decider derives them. `AllocError`
/// leaves the receipts unchanged.
pub(crate) fn decide<D: Decider>(
    decider: &mut D,
    now: Moment,
    opened: Opened,
    password: &[u8],
) -> Result<Decision, AllocError>
    requires moment { IsMoment now }
    ensures decision { IfOk result (λ d. IsDecision (D.may_be_full decider.new (D.gathered decider.new))
        d password.now opened now (D.gathered decider.old) (D.gathered decider.new)) }
    ensures refused { OnErr result (D.gathered decider.new ≡ D.gathered decider.old) }
    ensures follows { D.follows decider.old decider.new }
{
    let mut opened = opened;
    for _ in 0..TRIES {
        match try_once(decider, now, opened, password)? {
            Try::Verdict(verdict) => return Ok(Decision::Verdict(verdict)),
            Try::Full(back) => return Ok(Decision::Full(back)),
            Try::Again(again) => opened = again,
        }
    }
    match decider.decide_deriving(now, opened, password) {
        Ok(verdict) => Ok(Decision::Verdict(verdict)),
        Err(refused) => match refused.fault {
            DecideFault::Full => Ok(Decision::Full(refused.opened)),
            DecideFault::NeedKeys(_) | DecideFault::Memory => Err(AllocError),
        },
    }
}

fn try_once<D: Decider>(
    decider: &mut D,
    now: Moment,
    opened: Opened,
    password: &[u8],
) -> Result<Try, AllocError>
    requires moment { IsMoment now }
    ensures tried { IfOk result (λ t. IsTry (D.may_be_full decider.new (D.gathered decider.new))
        t password.now opened now (D.gathered decider.old) (D.gathered decider.new)) }
    ensures refused { OnErr result (D.gathered decider.new ≡ D.gathered decider.old) }
    ensures follows { D.follows decider.old decider.new }
{
    let Refused {
        fault,
        opened: mut back,
    } = match decider.decide(now, opened) {
        Ok(verdict) => return Ok(Try::Verdict(verdict)),
        Err(refused) => refused,
    };
    match fault {
        DecideFault::Full => Ok(Try::Full(back)),
        DecideFault::Memory => Err(AllocError),
        DecideFault::NeedKeys(counts) => {
            derive_more(&mut back, password, &counts)?;
            Ok(Try::Again(back))
        }
    }
}
