//! A worker whose decisions another worker's raises precede.
ghost use Rattle.std.specs.Prelude.{◌≡◌, true};
ghost use Rattle.chpw_rules.specs.Limits.{is_in, iteration_counts};
ghost use Rattle.chpw_table.specs.Times.{IsMoment};

use chpw_book::{AtDesk, DeskName, Pass};
use chpw_decider::Decider;
use chpw_journal::MemorySink;
use chpw_rules::Name;
use chpw_table::{Counts, Lookup, Moment, Opened, RaiseVerdict, Receipt, Refused, Verdict};
use std::sync::Wait;

/// A worker's place at a desk, where another worker raises the count before each of its first decisions:
/// to 8, 16, 32 and so on.
#[derive(Drop)]
pub struct Overtaken<'a, D: DeskName, R: Wait> {
    pub place: AtDesk<'a, D, MemorySink, R>,
    pub other: &'a mut Pass<D>,
    /// How many raises there are to be, and how many were made.
    pub raises: u32,
    pub raised: u32,
    /// How often `decide` was called.
    pub decisions: u32,
    /// How often `decide_deriving` was.
    pub derivations: u32,
}

impl<D: DeskName, R: Wait> Overtaken<'_, D, R> {
    fn overtake(&mut self, now: Moment)
        requires moment { IsMoment now }
        ensures place { self.new.place ≡ self.old.place }
    {
        if self.decisions < self.raises {
            let count = count_raised_to(self.decisions);
            let raised = self.place.desk.raise(self.place.rt, self.other, now, count);
            if matches!(raised, Ok(RaiseVerdict::Raised)) {
                self.raised = self.raised.wrapping_add(1);
            }
        }
        self.decisions = self.decisions.wrapping_add(1);
    }
}

// The count that is raised to before the decision of this number, from 0.
fn count_raised_to(decision: u32) -> u32
    ensures range { is_in iteration_counts result ≡ true }
{
    match decision {
        0 => 8,
        1 => 16,
        2 => 32,
        _ => 64,
    }
}

/// It keeps what its place keeps.
impl<D: DeskName, R: Wait> Decider for Overtaken<'_, D, R> {
    ghost use Rattle.std.specs.Prelude.{◌≡◌, refl, true};
    ghost use Rattle.std.proofs.Common.{◌∙◌};
    ghost use Rattle.chpw_changelog.specs.Pens.{opening_state};
    ghost use Rattle.chpw_book.specs.Passes.{IsLaterPass};
    ghost use Rattle.chpw_book.specs.Publishing.{IsKvnoTold};

    ghost gathered = { λ a. a.place.pass.now.receipts };

    ghost may_be_full = { λ a rs. a.place.pass.now.was_full ≡ true };

    ghost follows = { λ a b. (b.place.pass.ghost_name ≡ a.place.pass.ghost_name)
        × IsLaterPass a.place.pass.now b.place.pass.now };

    ghost made = { λ a kvno. IsKvnoTold (opening_state D.root) a.place.pass.now.place.own kvno };

    fn lookup(&mut self, name: &Name) -> Option<Lookup> {
        self.place.lookup(name)
    }

    fn missing(&mut self, now: Moment, opened: &Opened) -> Counts {
        self.place.missing(now, opened)
    }

    fn decide(&mut self, now: Moment, opened: Opened) -> Result<Verdict, Refused> {
        self.overtake(now);
        self.place.decide(now, opened)
    }

    fn decide_deriving(
        &mut self,
        now: Moment,
        opened: Opened,
        password: &[u8],
    ) -> Result<Verdict, Refused> {
        self.derivations = self.derivations.wrapping_add(1);
        self.place.decide_deriving(now, opened, password)
    }

    fn receipts(&self) -> &[Receipt] {
        self.place.receipts()
    }

    fn made_kvno(&self) -> Option<u32> {
        self.place.made_kvno()
    }

    ghost stays = { λ a. (refl, (refl, λ h. h)) };

    ghost goes_on = { λ a b c h g. (g.0 ∙ h.0, (g.1.0 ∙ h.1.0, λ k. g.1.1 (h.1.1 k))) };

    ghost still_full = { λ a b rs h g. h.1.1 g };
}
