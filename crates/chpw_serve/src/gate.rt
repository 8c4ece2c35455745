//! A gate that workers pass.
ghost use Rattle.chpw_serve.specs.declared.gate.Spot.{Spot};

use crate::observer::{Observer, UpdateObserver};
use chpw_table::{KdcUpdate, Moment, Opened, Receipt, UpdateVerdict};
use krb_protocol::Refusal;
use std::net::IpAddr;

/// A place on a message's way.
#[derive(Clone, Copy, Drop)]
pub enum Spot {
    /// It opened, and isn't decided yet.
    Opened,
    /// Its reply is written.
    Answered,
}

/// What a worker passes with each message that opened: a test can hold it there.
pub trait Gate {
    /// Passed at this place in the first state, it is in the second.
    ghost passes: { Self → Spot → Self → Type 0 };

    /// The worker comes to this place.
    fn at(&mut self, spot: Spot)
        ensures passed { passes self.old spot self.new };
}

/// A gate that holds nobody, and an observer that takes no note.
#[derive(Clone, Copy, Drop)]
pub struct NoGate;

impl Gate for NoGate {
    ghost use Rattle.chpw_serve.specs.Hearing.{HoldsNobody};

    ghost passes = { HoldsNobody };

    fn at(&mut self, _spot: Spot) {}
}

impl Observer for NoGate {
    ghost use Rattle.chpw_serve.specs.Hearing.{NotesNothing};

    ghost hears = { NotesNothing };

    fn decided(&mut self, _peer: IpAddr, _now: Moment, _receipt: &Receipt, _kvno: Option<u32>) {}

    fn refused(
        &mut self,
        _peer: IpAddr,
        _now: Moment,
        _opened: Option<&Opened>,
        _refusal: &Refusal,
    ) {}
}

impl UpdateObserver for NoGate {
    ghost use Rattle.std.specs.Prelude.{◌≡◌};

    ghost hears_update = { λ a now update verdict b. b ≡ a };

    fn updated(&mut self, _now: Moment, _update: &KdcUpdate, _verdict: UpdateVerdict) {}
}
