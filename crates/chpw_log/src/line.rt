//! The contents of a line.
ghost use Rattle.std.specs.Prelude.{◌<◌};
ghost use Rattle.chpw_table.specs.Times.{IsMoment};
ghost use Rattle.chpw_log.specs.Moments.{IsInMicros};

use crate::message_event::MessageEvent;
use chpw_table::Moment;
use std::net::IpAddr;

/// The contents of a line about one message.
#[derive(Clone, Copy, Drop)]
pub struct Line<'a> {
    /// When the message was read.
    pub moment: Moment,
    /// The worker that answers it.
    pub worker: u8,
    /// The address that it came from.
    pub peer: IpAddr,
    pub news: MessageEvent<'a>,
    ghost range: { IsMoment moment × (moment.micros < 1000000) },
}

/// A moment in microseconds since 1970-01-01T00:00:00Z.
pub fn micros_of(moment: Moment) -> u64
    requires moment { IsMoment moment }
    requires micros { moment.micros < 1000000 }
    ensures value { IsInMicros result moment }
{
    moment.seconds as u64 * 1_000_000 + u64::from(moment.micros)
}
