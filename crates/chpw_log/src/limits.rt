//! The limits of all kinds, each by itself, so that a flood of one kind hides no other.
ghost use Rattle.std.specs.Prelude.{◌≡◌};
ghost use Rattle.chpw_log.specs.Limits.{no_lines, none_held};
ghost use Rattle.chpw_log.specs.Kinds.{AreFew, HaveRoom, IsAfter, IsLeft, IsNoneHeld, IsRest, IsTold, is_line, is_replayed, is_skewed, is_unopened};

use crate::held_count::HeldCount;
use crate::kind::HeldKind;
use crate::limit::LineLimit;
use std::net::IpAddr;

/// The summaries that are due, by what they count.
#[derive(Clone, Copy, Drop)]
pub struct HeldCounts {
    pub unopened: Option<HeldCount>,
    pub skewed: Option<HeldCount>,
    pub replayed: Option<HeldCount>,
}

/// What is to be written for a message of a kind whose lines are limited.
#[derive(Clone, Copy, Drop)]
pub struct LinePermit {
    /// First the summaries of how many were held back, those that are due.
    pub told: HeldCounts,
    /// Then a line of its own, if it has one.
    pub line: bool,
}

/// Which messages of each kind have a line of their own: ten of a kind in any one second. The others of a kind are
/// counted together, and a summary of them is due once the first of them is a second old; that count then starts again.
#[derive(Clone, Copy, Drop)]
pub struct LineLimits {
    unopened: LineLimit,
    skewed: LineLimit,
    replayed: LineLimit,
}

impl LineLimits {
    /// No line was written and nothing held back.
    pub fn new() -> LineLimits
        ensures unopened { (result.unopened.lines ≡ no_lines) × (result.unopened.held ≡ none_held) }
        ensures skewed { (result.skewed.lines ≡ no_lines) × (result.skewed.held ≡ none_held) }
        ensures replayed { (result.replayed.lines ≡ no_lines) × (result.replayed.held ≡ none_held) }
    {
        LineLimits {
            unopened: LineLimit::new(),
            skewed: LineLimit::new(),
            replayed: LineLimit::new(),
        }
    }

    /// What is to be written for a message of this kind from this peer, at this time in microseconds. If it has no line
    /// of its own it is counted among its kind.
    pub fn ask(&mut self, kind: HeldKind, now: u64, peer: IpAddr) -> LinePermit
        ensures told { IsTold now self.old result.told }
        ensures few { AreFew result.told }
        ensures line { result.line ≡ is_line now kind self.old }
        ensures unopened { IsAfter (is_unopened kind) now peer self.old.unopened self.new.unopened }
        ensures skewed { IsAfter (is_skewed kind) now peer self.old.skewed self.new.skewed }
        ensures replayed { IsAfter (is_replayed kind) now peer self.old.replayed self.new.replayed }
    {
        let told = self.due(now);
        let line = match kind {
            HeldKind::Unopened => self.unopened.take(now, peer),
            HeldKind::Skewed => self.skewed.take(now, peer),
            HeldKind::Replayed => self.replayed.take(now, peer),
        };
        LinePermit { told, line }
    }

    /// How many of each kind were held back, where a summary is due at this time; that count then starts again.
    pub fn due(&mut self, now: u64) -> HeldCounts
        ensures told { IsTold now self.old result }
        ensures few { AreFew result }
        ensures unopened { IsLeft now self.old.unopened self.new.unopened }
        ensures skewed { IsLeft now self.old.skewed self.new.skewed }
        ensures replayed { IsLeft now self.old.replayed self.new.replayed }
        ensures room { HaveRoom self.new }
    {
        HeldCounts {
            unopened: self.unopened.due(now),
            skewed: self.skewed.due(now),
            replayed: self.replayed.due(now),
        }
    }

    /// How many of each kind were held back since its last summary; the counts then start again.
    pub fn rest(&mut self) -> HeldCounts
        ensures told { IsRest self.old result }
        ensures few { AreFew result }
        ensures none { IsNoneHeld self.new }
    {
        HeldCounts {
            unopened: self.unopened.rest(),
            skewed: self.skewed.rest(),
            replayed: self.replayed.rest(),
        }
    }
}
