//! What a table leaves to the one of a next run.
ghost use Rattle.std.specs.Prelude.{◌≡◌, ◌≤◌, ◌<◌, ◌^◌, IfOk, OnOk, OnErr, length};
ghost use Rattle.chpw_table.specs.Agreement.{Agrees};
ghost use Rattle.chpw_table.specs.Holding.{HoldsIds};
ghost use Rattle.chpw_table.specs.Resuming.{carried_of, resumed};
ghost use Rattle.chpw_table.specs.Times.{IsTime};

use super::step::put_ids;
use super::{MOST_CARRIED, Table};
use crate::request::RequestId;
use chpw_ordered_keys::KeyTree;
use chpw_rules::Items;
use std::alloc::{AllocError, Global};

/// What a table leaves to the one of a next run, beside its keys, which the journal has.
#[derive(Drop)]
pub struct ResumeState {
    /// The used ids; those too old to be judged may lack.
    pub ids: Items<RequestId>,
    /// Its clock, seconds since 1970: the latest moment of an event, 0 to `LAST_SECOND`.
    pub clock: i64,
    /// Until when it is quiet, seconds since 1970.
    pub quiet_until: i64,
}

impl Table {
    /// A copy of what it leaves.
    pub fn carried(&self, alloc: Global) -> Result<ResumeState, AllocError>
        ensures value { IfOk result (λ carried. carried ≡ carried_of self.now.state) }
        ensures clock { IfOk result (λ carried. IsTime carried.clock) }
    {
        Ok(ResumeState {
            ids: copied_ids(alloc, &self.used)?,
            clock: self.clock,
            quiet_until: self.standing.quiet_until(),
        })
    }

    /// This table as the opening one of a run that takes over what a former one left: used ids, clock and quiet time are
    /// that one's, all else is this one's. Events and changes are counted from 0. Refused if there are more than 2^31
    /// ids, as the memory that they would take is.
    pub fn resume(self, alloc: Global, carried: ResumeState) -> Result<Table, AllocError>
        requires clock { IsTime carried.clock }
        ensures resumed { IfOk result (λ t. Agrees t.state (resumed carried self.state)) }
        ensures counts { IfOk result (λ t. (t.events ≡ 0) × (t.seen ≡ 0) × (t.max_entries ≡ self.max_entries)) }
    {
        let ResumeState {
            ids,
            clock,
            quiet_until,
        } = carried;
        let used = used_of(alloc, ids, clock)?;
        let Table { standing, .. } = self;
        Ok(Table {
            standing: standing.quiet(quiet_until),
            used,
            clock,
            events: 0,
            seen: 0,
            ..self
        })
    }
}

// The ids in a tree, but for those too old to be judged. Refused if there are more than 2^31.
fn used_of(
    alloc: Global,
    ids: Items<RequestId>,
    clock: i64,
) -> Result<KeyTree<RequestId>, AllocError>
    ensures holds { IfOk result (λ used. HoldsIds clock ids used) }
    ensures few { OnOk result (length ids ≤ 2 ^ 31) }
{
    let ids = ids.into_vec();
    if ids.len() > MOST_CARRIED as usize {
        return Err(AllocError);
    }
    tree_of(alloc, ids, clock)
}

// The ids in a tree, but for those too old to be judged.
fn tree_of(alloc: Global, ids: Vec<RequestId>, clock: i64) -> Result<KeyTree<RequestId>, AllocError>
    requires few { length ids.items ≤ 2 ^ 31 }
    ensures holds { IfOk result (λ used. HoldsIds clock ids.items used) }
{
    let mut used = KeyTree::new();
    for id in ids {
        put_ids(&mut used, KeyTree::of(alloc, id)?, clock);
    }
    Ok(used)
}

fn copied_ids(alloc: Global, used: &KeyTree<RequestId>) -> Result<Items<RequestId>, AllocError>
    ensures value { IfOk result (λ ids. ids ≡ used.now) }
{
    let count = used.len();
    let mut ids = Vec::with_capacity(alloc, count)?;
    for place in 0..count {
        match used.get(place) {
            Some(id) => ids.push(id.clone()?)?,
            None => break,
        }
    }
    Ok(Items::of(ids))
}
