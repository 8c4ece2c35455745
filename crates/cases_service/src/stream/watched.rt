//! A decider that records what a table is asked, and may refuse.
ghost use Rattle.std.specs.Prelude.{◌≤◌, All};

use chpw_decider::{Alone, Decider};
use chpw_journal::MemorySink;
use chpw_rules::Name;
use chpw_table::{Body, Counts, DecideFault, Lookup, Moment, Opened, Receipt, Refused, Verdict};
use std::alloc::Global;

/// What it does when it is asked to decide.
#[derive(Clone, Copy, Drop)]
pub enum Mood {
    /// What the table does.
    Plain,
    /// It asks for keys under this count, this many times.
    Needs(u32),
    /// It answers that it is full.
    Full,
}

impl Mood {
    /// What a decider does, by its name.
    pub fn of(who: &str) -> Mood {
        match who {
            "needing once" => Mood::Needs(1),
            "needing three times" => Mood::Needs(3),
            "needing always" => Mood::Needs(u32::MAX),
            "full" => Mood::Full,
            _ => Mood::Plain,
        }
    }
}

/// A table, and what it was asked.
#[derive(Drop)]
pub struct Watched {
    alone: Alone<MemorySink>,
    mood: Mood,
    /// Calls of `decide`, and of `decide_deriving`.
    pub decides: u32,
    pub derivings: u32,
    /// The counts of the digest of the last `decide`.
    pub counts: Counts,
    /// The names looked up, each after a space.
    pub names: Vec<u8>,
}

impl Watched {
    pub fn of(alloc: Global, alone: Alone<MemorySink>, mood: Mood) -> Watched {
        Watched {
            alone,
            mood,
            decides: 0,
            derivings: 0,
            counts: Counts::new(),
            names: Vec::new(alloc),
        }
    }
}

/// Adds a name that is looked up; without memory, only a part of it.
fn add_name(names: &mut Vec<u8>, name: &Name) {
    let _ = names.extend_from_slice(b" ");
    for part in name.parts.as_slice() {
        let _ = names.extend_from_slice(part.as_slice());
    }
}

/// The counts of a request's digest.
fn counts_of(opened: &Opened) -> Counts {
    let mut counts = Counts::new();
    if let Body::Ask { digest, .. } = &opened.body {
        for (count, _, _) in digest.derived.as_slice() {
            let _ = counts.push(*count);
        }
    }
    counts
}

/// The count 4 alone.
fn four() -> Counts
    ensures positive { All (λ n. 1 ≤ n) result }
{
    let mut counts = Counts::new();
    let _ = counts.push(4);
    counts
}

impl Decider for Watched {
    ghost gathered = { λ w. w.alone.receipts };

    ghost may_be_full = { λ _ _. Unit {0} };

    ghost follows = { λ _ _. Unit {0} };

    ghost made = { λ _ _. Unit {0} };

    fn lookup(&mut self, name: &Name) -> Option<Lookup> {
        add_name(&mut self.names, name);
        self.alone.lookup(name)
    }

    fn missing(&mut self, now: Moment, opened: &Opened) -> Counts {
        self.alone.missing(now, opened)
    }

    fn decide(&mut self, now: Moment, opened: Opened) -> Result<Verdict, Refused> {
        self.decides = self.decides.saturating_add(1);
        self.counts = counts_of(&opened);
        match self.mood {
            Mood::Full => Err(Refused {
                fault: DecideFault::Full,
                opened,
            }),
            Mood::Needs(times) if self.decides <= times => Err(Refused {
                fault: DecideFault::NeedKeys(four()),
                opened,
            }),
            Mood::Needs(_) | Mood::Plain => self.alone.decide(now, opened),
        }
    }

    fn decide_deriving(
        &mut self,
        now: Moment,
        opened: Opened,
        password: &[u8],
    ) -> Result<Verdict, Refused> {
        self.derivings = self.derivings.saturating_add(1);
        self.alone.decide_deriving(now, opened, password)
    }

    fn receipts(&self) -> &[Receipt] {
        self.alone.receipts()
    }

    fn made_kvno(&self) -> Option<u32> {
        self.alone.made_kvno()
    }

    ghost stays = { λ _. tt };

    ghost goes_on = { λ _ _ _ _ _. tt };

    ghost still_full = { λ _ _ _ _ _. tt };
}
