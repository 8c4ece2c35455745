//! What is planned of an update before its append.
ghost use Rattle.std.specs.Prelude.{◌≡◌, IfOk, true, false};
ghost use Rattle.chpw_table.specs.declared.updating.UpdateVerdict.TheVariants.{Taken};
ghost use Rattle.chpw_table.specs.State.{keys_held};
ghost use Rattle.chpw_table.specs.Updates.{key_in, name_in, update_fits, update_verdict};
ghost use Rattle.chpw_table.specs.Updates.{lifted_key as lifted_key_spec};
ghost use Rattle.chpw_table.specs.Updating.{has_too_many};
ghost use Rattle.chpw_table.specs.Planning.{IsNextPlan, IsUpdatePlanned, keys_left};
ghost use Rattle.chpw_table.specs.Placing.{IsPlaced};

use super::Table;
use super::placing::Placement;
use crate::key::blank_key;
use crate::updating::{KdcUpdate, UpdateVerdict};
use chpw_record::{KeyRow, key_bytes};
use std::alloc::AllocError;

// What an update does if it is taken, with all the memory that it needs.
#[derive(Drop)]
pub(super) struct Plan {
    // What the journal gets.
    pub(super) record: Vec<u8>,
    // Where the name's keys go.
    pub(super) placement: Placement,
}

impl Table {
    // The plan of an update with this row, if it is taken.
    pub(super) fn planned(
        &self,
        row: UpdateVerdict,
        update: &KdcUpdate,
    ) -> Result<Option<Plan>, AllocError>
        requires row { row ≡ update_verdict self.now.state update.now false }
        requires fits { update_fits update.now ≡ true }
        requires few { has_too_many self.now update.now ≡ false }
        ensures planned { IfOk result (λ p.
            IsUpdatePlanned self.now.state row update.now p) }
    {
        match row {
            UpdateVerdict::Taken => Ok(Some(self.plan(update)?)),
            _ => Ok(None),
        }
    }

    // The plan of an update that is taken.
    fn plan(&self, update: &KdcUpdate) -> Result<Plan, AllocError>
        requires taken { update_verdict self.now.state update.now false ≡ Taken }
        requires fits { update_fits update.now ≡ true }
        requires few { has_too_many self.now update.now ≡ false }
        ensures next { IfOk result (λ p. IsNextPlan self.now.state update.now p) }
    {
        // A field is read, so that the type's invariant is known.
        let alloc = *self.principals.allocator();
        let key = self.key_in(update);
        let record = key_bytes(alloc, update.kind(), update.name(), &key)?;
        let placement = self.placement(update, key)?;
        Ok(Plan { record, placement })
    }

    // The key that the record of an update has: the KDC's, or the newest one held, under the KDC's version.
    fn key_in(&self, update: &KdcUpdate) -> KeyRow
        ensures value { result ≡ key_in (keys_held self.now.state (name_in update.now)) update.now }
    {
        match update {
            KdcUpdate::Adopt { key, .. } => *key,
            KdcUpdate::Lift { name, kvno } => match self.find_keys(name) {
                None => lifted_key(&[], *kvno),
                Some(held) => lifted_key(held, *kvno),
            },
            KdcUpdate::Remove { .. } => blank_key(),
        }
    }

    // Where the keys go of an update that is taken, whose record has this key.
    fn placement(&self, update: &KdcUpdate, key: KeyRow) -> Result<Placement, AllocError>
        requires taken { update_verdict self.now.state update.now false ≡ Taken }
        requires fits { update_fits update.now ≡ true }
        requires few { has_too_many self.now update.now ≡ false }
        requires key { key ≡ key_in (keys_held self.now.state (name_in update.now)) update.now }
        ensures placed { IfOk result (λ p. IsPlaced self.now.state (name_in update.now)
            (keys_left self.now.state update.now) p) }
    {
        // A field is read, so that the type's invariant is known.
        let _ = &self.principals;
        match update {
            KdcUpdate::Adopt { name, .. } => self.place_adopted(name, key),
            KdcUpdate::Lift { name, .. } => self.place_lifted(name, key),
            KdcUpdate::Remove { name } => Ok(self.place_removed(name)),
        }
    }
}

// The newest of these keys, under this version.
fn lifted_key(held: &[KeyRow], kvno: u32) -> KeyRow
    ensures value { result ≡ lifted_key_spec kvno held.now }
{
    match held {
        [] => KeyRow {
            kvno,
            ..blank_key()
        },
        [key, ..] => KeyRow { kvno, ..*key },
    }
}
