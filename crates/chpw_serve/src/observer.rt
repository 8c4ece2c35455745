//! What hears what comes of messages.
ghost use Rattle.std.specs.Prelude.{◌<◌, option_map};
ghost use Rattle.chpw_table.specs.Times.{IsMoment};
ghost use Rattle.chpw_serve.specs.Holding.{answer_in};
ghost use Rattle.chpw_serve.specs.Hearing.{Heard, decision, refusal as refusal_of};
ghost use Rattle.chpw_table.specs.declared.times.Moment.{Moment as moment_spec};
ghost use Rattle.chpw_table.specs.declared.updating.KdcUpdate.{KdcUpdate as update_spec};
ghost use Rattle.chpw_table.specs.declared.updating.UpdateVerdict.{UpdateVerdict as verdict_spec};

use chpw_table::{KdcUpdate, Moment, Opened, Receipt, UpdateVerdict};
use krb_protocol::Refusal;
use std::net::IpAddr;

/// What hears what was decided or refused, as a log. `peer` is the address that the message came from.
pub trait Observer {
    /// Hearing this leads from the first state to the second.
    ghost hears: { Self → Heard → Self → Type 0 };

    /// A request from this peer was decided at this moment: this is its receipt. `kvno` is the version of the
    /// new key after a change, and none after another decision.
    fn decided(&mut self, peer: IpAddr, now: Moment, receipt: &Receipt, kvno: Option<u32>)
        requires moment { IsMoment now }
        requires micros { now.micros < 1000000 }
        ensures heard { hears self.old (decision peer now receipt.now kvno) self.new };

    /// A message from this peer was not decided: it didn't open, was too long, or came to a full history, and is
    /// answered so at this moment. In the last case there is the request.
    fn refused(&mut self, peer: IpAddr, now: Moment, opened: Option<&Opened>, refusal: &Refusal)
        requires moment { IsMoment now }
        requires micros { now.micros < 1000000 }
        ensures heard { hears self.old
            (refusal_of peer now (option_map (λ o. o.now) opened.entry) (answer_in refusal.now)) self.new };
}

/// What hears what came of updates from the KDC, as a log.
pub trait UpdateObserver {
    /// Hearing this leads from the first state to the second.
    ghost hears_update: { Self → moment_spec → update_spec → verdict_spec → Self → Type 0 };

    /// An update was decided at this moment.
    fn updated(&mut self, now: Moment, update: &KdcUpdate, verdict: UpdateVerdict)
        requires moment { IsMoment now }
        requires micros { now.micros < 1000000 }
        ensures heard { hears_update self.old now update.now verdict self.new };
}
