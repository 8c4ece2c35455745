//! What a desk refuses beside its lock.
ghost use Rattle.std.specs.Prelude.{◌≡◌};
ghost use Rattle.chpw_changelog.specs.Pens.{opening_state, opening_table};
ghost use Rattle.chpw_table.specs.Standing.{refused_anyway};

use crate::naming::DeskName;
use chpw_table::{Moment, Opened, StandingRules, Table};
use std::alloc::AllocError;
use std::marker::PhantomData;

/// The standing rules of the table that a desk opens with. No event changes them, so its table has the same
/// for as long as the desk is open.
#[derive(Drop)]
pub(crate) struct OpeningRules<D: DeskName> {
    rules: StandingRules,
    of: PhantomData<D>,
    ghost opening: { rules ≡ (opening_state D.root).fixed },
}

impl<D: DeskName> OpeningRules<D> {
    /// A copy of this table's.
    pub(crate) fn of(table: &Table) -> Result<OpeningRules<D>, AllocError>
        requires opening { opening_table D.root ≡ table.now }
    {
        Ok(OpeningRules {
            rules: table.standing_rules()?,
            of: PhantomData,
        })
    }

    /// Whether they refuse the request, whatever was decided since.
    pub(crate) fn refuse(&self, now: Moment, opened: &Opened) -> bool
        ensures value { result ≡ refused_anyway (opening_state D.root).fixed now opened.now }
    {
        self.rules.refuse(now, opened)
    }
}
