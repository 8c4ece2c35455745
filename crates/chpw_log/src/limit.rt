//! Which messages of one kind have a line of their own: so few that no flood of them fills a disk.
ghost use Rattle.std.specs.Prelude.{◌≡◌, ◌+◌, ◌<◌, ◌≤◌, IfSome};
ghost use Rattle.chpw_log.specs.Limits.{counted_after, is_apart, is_due, is_free, is_gone, is_loopback, is_none_held, left_at};
ghost use Rattle.chpw_log.specs.Limits.{lines_after, no_lines, none_held, one_more, rest_of, told_at};

use crate::held_count::HeldCount;
use std::net::IpAddr;

/// A second, in microseconds.
const SECOND: u64 = 1_000_000;

/// The most messages that one summary counts.
const MOST: u32 = 1_000_000;

/// Which messages of one kind have a line of their own: ten in any one second. The others are counted, and a summary of
/// them is due once the first of them is a second old; the count then starts again.
#[derive(Clone, Copy, Drop)]
pub(crate) struct LineLimit {
    /// When the last ten lines were, newest first.
    lines: [Option<u64>; 10],
    held: HeldCount,
    ghost few: { held.loopback + held.other ≤ 1000000 },
}

impl HeldCount {
    // None.
    fn none() -> HeldCount
        ensures value { result ≡ none_held }
    {
        HeldCount {
            loopback: 0,
            other: 0,
            since: 0,
        }
    }

    fn is_none(&self) -> bool
        ensures value { result ≡ is_none_held self.now }
    {
        self.loopback == 0 && self.other == 0
    }

    fn is_due(&self, now: u64) -> bool
        requires few { self.now.loopback + self.now.other ≤ 1000000 }
        ensures value { result ≡ is_due now self.now }
    {
        !self.is_none() && (are_apart(now, self.since) || self.loopback + self.other >= MOST)
    }

    // These and one more from this peer.
    fn with(self, now: u64, peer: IpAddr) -> HeldCount
        requires room { self.loopback + self.other < 1000000 }
        ensures value { result ≡ one_more now peer self }
    {
        let since = if self.is_none() { now } else { self.since };
        if is_loopback(peer) {
            HeldCount {
                loopback: self.loopback + 1,
                other: self.other,
                since,
            }
        } else {
            HeldCount {
                loopback: self.loopback,
                other: self.other + 1,
                since,
            }
        }
    }
}

// Whether an address is of this host, whatever its name.
fn is_loopback(peer: IpAddr) -> bool
    ensures value { result ≡ is_loopback peer }
{
    match peer {
        IpAddr::V4(ip) => ip.octets()[0] == 127,
        IpAddr::V6(ip) => ip.segments().as_slice() == [0, 0, 0, 0, 0, 0, 0, 1].as_slice(),
    }
}

impl LineLimit {
    /// No line was written and nothing held back.
    pub fn new() -> LineLimit
        ensures lines { result.lines ≡ no_lines }
        ensures held { result.held ≡ none_held }
    {
        LineLimit {
            lines: [None; 10],
            held: HeldCount::none(),
        }
    }

    /// Whether a message of the kind has a line of its own, at this time in microseconds. If it has none it is counted,
    /// as one from this peer.
    pub fn take(&mut self, now: u64, peer: IpAddr) -> bool
        requires room { self.old.held.loopback + self.old.held.other < 1000000 }
        ensures line { result ≡ is_free now self.old.lines }
        ensures lines { self.new.lines ≡ lines_after now self.old.lines }
        ensures held { self.new.held ≡ counted_after now peer self.old.lines self.old.held }
    {
        let line = self.note(now);
        if !line {
            self.held = self.held.with(now, peer);
        }
        line
    }

    /// How many were held back, if a summary is due at this time; the count then starts again.
    pub fn due(&mut self, now: u64) -> Option<HeldCount>
        ensures told { result ≡ told_at now self.old.held }
        ensures few { IfSome result (λ held. held.loopback + held.other ≤ 1000000) }
        ensures held { self.new.held ≡ left_at now self.old.held }
        ensures room { self.new.held.loopback + self.new.held.other < 1000000 }
        ensures lines { self.new.lines ≡ self.old.lines }
    {
        if !self.held.is_due(now) {
            return None;
        }
        let told = self.held;
        self.held = HeldCount::none();
        Some(told)
    }

    /// How many were held back since the last summary; the count then starts again.
    pub fn rest(&mut self) -> Option<HeldCount>
        ensures told { result ≡ rest_of self.old.held }
        ensures few { IfSome result (λ held. held.loopback + held.other ≤ 1000000) }
        ensures held { (self.new.held.loopback ≡ 0) × (self.new.held.other ≡ 0) }
        ensures lines { self.new.lines ≡ self.old.lines }
    {
        if self.held.is_none() {
            return None;
        }
        let told = self.held;
        self.held = HeldCount::none();
        Some(told)
    }

    // Notes a line at this time, if there may be one; whether there may.
    fn note(&mut self, now: u64) -> bool
        ensures line { result ≡ is_free now self.old.lines }
        ensures lines { self.new.lines ≡ lines_after now self.old.lines }
        ensures held { self.new.held ≡ self.old.held }
    {
        let [a, b, c, d, e, f, g, h, i, tenth] = self.lines;
        let free = is_past(now, tenth);
        if free {
            self.lines = [Some(now), a, b, c, d, e, f, g, h, i];
        }
        free
    }
}

// Whether a line at this time comes a second or more after this one.
fn is_past(now: u64, line: Option<u64>) -> bool
    ensures value { result ≡ is_gone now line }
{
    match line {
        None => true,
        Some(line) => are_apart(now, line),
    }
}

// Whether a second or more lies between two times.
fn are_apart(one: u64, other: u64) -> bool
    ensures value { result ≡ is_apart one other }
{
    one.saturating_sub(other) >= SECOND || other.saturating_sub(one) >= SECOND
}
