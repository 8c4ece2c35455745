//! Replaying what the KDC said of a name.
ghost use Rattle.std.specs.Prelude.{◌≡◌, ◌==◌, ◌&&◌, not, IfOk, IfErr, OnOk, OnErr, true, length, is_none};
ghost use Rattle.chpw_rules.specs.Limits.{is_in, iteration_counts, principal_counts};
ghost use Rattle.chpw_rules.specs.Names.{is_name};
ghost use Rattle.chpw_record.specs.declared.record.KeyKind.TheVariants.{Adopt, Lift, Remove};
ghost use Rattle.chpw_table.specs.State.{State, keys_held, kept_count};
ghost use Rattle.chpw_table.specs.Updates.{blank_key, is_newer, keys_after};
ghost use Rattle.chpw_table.specs.Agreement.{Agrees};
ghost use Rattle.chpw_table.specs.Placing.{IsPlaced};
ghost use Rattle.chpw_table.specs.Restoring.{with_updated_keys, IsNextUpdate, IsUpdateKeyRefused};

use super::placing::Placement;
use super::{KeyFault, Table};
use crate::key::kvno_of;
use chpw_record::KeyRow;
use chpw_rules::{Name, PRINCIPAL_COUNTS};

impl Table {
    /// Replays a key that was adopted from the KDC in a former run: it comes before the name's, of which the newest are
    /// kept, or is the first of a name that isn't held, which joins the principals. The rest of the table stays: it is
    /// no event. The name has 1 to 8 components of 1 to 128 bytes, and the key's iteration count is 1 to 16,777,216.
    ///
    /// Refused, with nothing changed: `WrongVersion` if the name is held under this version or a higher one; `TooMany`
    /// if the name isn't held, and there are 10,000 principals; `Memory`.
    pub fn restore_adopted(&mut self, name: &Name, key: KeyRow) -> Result<(), KeyFault>
        requires name { is_name name.now ≡ true }
        requires count { is_in iteration_counts key.count ≡ true }
        ensures step { OnOk result ((s : State) → Agrees self.old.state s
            → IsNextUpdate Adopt s name.now key
            × Agrees self.new.state (with_updated_keys Adopt name.now key s)) }
        ensures counts { (self.new.events ≡ self.old.events) × (self.new.seen ≡ self.old.seen)
            × (self.new.max_entries ≡ self.old.max_entries) }
        ensures first { IfErr result (λ fault. (s : State) → Agrees self.old.state s
            → IsUpdateKeyRefused (length self.old.state.principals) Adopt s name.now key fault) }
        ensures unchanged { OnErr result (self.new ≡ self.old) }
    {
        let placement = self.adopted_place(name, key)?;
        self.put_placed(placement);
        Ok(())
    }

    /// Replays a key that was lifted to the KDC's version in a former run: it takes the place of the name's newest. The
    /// rest of the table stays: it is no event. The key's iteration count is 1 to 16,777,216.
    ///
    /// Refused, with nothing changed: `UnknownPrincipal`; `WrongVersion` if the version is not above the newest held;
    /// `Memory`.
    pub fn restore_lifted(&mut self, name: &Name, key: KeyRow) -> Result<(), KeyFault>
        requires count { is_in iteration_counts key.count ≡ true }
        ensures step { OnOk result ((s : State) → Agrees self.old.state s
            → IsNextUpdate Lift s name.now key
            × Agrees self.new.state (with_updated_keys Lift name.now key s)) }
        ensures counts { (self.new.events ≡ self.old.events) × (self.new.seen ≡ self.old.seen)
            × (self.new.max_entries ≡ self.old.max_entries) }
        ensures first { IfErr result (λ fault. (s : State) → Agrees self.old.state s
            → IsUpdateKeyRefused (length self.old.state.principals) Lift s name.now key fault) }
        ensures unchanged { OnErr result (self.new ≡ self.old) }
    {
        let placement = self.lifted_place(name, key)?;
        self.put_placed(placement);
        Ok(())
    }

    /// Replays that a name was removed in a former run: it is held no more, whatever keys it had. The rest of the table
    /// stays: it is no event. Refused, with nothing changed, if the name is unknown.
    pub fn restore_removed(&mut self, name: &Name) -> Result<(), KeyFault>
        ensures step { OnOk result ((s : State) → Agrees self.old.state s
            → IsNextUpdate Remove s name.now blank_key
            × Agrees self.new.state (with_updated_keys Remove name.now blank_key s)) }
        ensures counts { (self.new.events ≡ self.old.events) × (self.new.seen ≡ self.old.seen)
            × (self.new.max_entries ≡ self.old.max_entries) }
        ensures first { IfErr result (λ fault. (s : State) → Agrees self.old.state s
            → IsUpdateKeyRefused (length self.old.state.principals) Remove s name.now blank_key fault) }
        ensures unchanged { OnErr result (self.new ≡ self.old) }
    {
        if !self.holds(name) {
            return Err(KeyFault::UnknownPrincipal);
        }
        let placement = self.place_removed(name);
        self.put_placed(placement);
        Ok(())
    }

    fn adopted_place(&self, name: &Name, key: KeyRow) -> Result<Placement, KeyFault>
        requires name { is_name name.now ≡ true }
        requires count { is_in iteration_counts key.count ≡ true }
        ensures next { OnOk result (IsNextUpdate Adopt self.now.state name.now key) }
        ensures placed { IfOk result (λ p. IsPlaced self.now.state name.now
            (keys_after Adopt (kept_count self.now.state) key (keys_held self.now.state name.now)) p) }
        ensures first { IfErr result (λ fault. IsUpdateKeyRefused
            (length self.now.state.principals) Adopt self.now.state name.now key fault) }
    {
        // A field is read, so that the type's invariant is known.
        let _ = &self.principals;
        if !self.is_newer(name, key.kvno) {
            return Err(KeyFault::WrongVersion);
        }
        if self.lacks_room(name) {
            return Err(KeyFault::TooMany);
        }
        Ok(self.place_adopted(name, key)?)
    }

    fn lifted_place(&self, name: &Name, key: KeyRow) -> Result<Placement, KeyFault>
        requires count { is_in iteration_counts key.count ≡ true }
        ensures next { OnOk result (IsNextUpdate Lift self.now.state name.now key) }
        ensures placed { IfOk result (λ p. IsPlaced self.now.state name.now
            (keys_after Lift (kept_count self.now.state) key (keys_held self.now.state name.now)) p) }
        ensures first { IfErr result (λ fault. IsUpdateKeyRefused
            (length self.now.state.principals) Lift self.now.state name.now key fault) }
    {
        if !self.holds(name) {
            return Err(KeyFault::UnknownPrincipal);
        }
        if !self.is_newer(name, key.kvno) {
            return Err(KeyFault::WrongVersion);
        }
        Ok(self.place_lifted(name, key)?)
    }

    // Whether a name is held.
    fn holds(&self, name: &Name) -> bool
        ensures value { result ≡ not (is_none (keys_held self.now.state name.now)) }
    {
        self.find_keys(name).is_some()
    }

    // Whether a version is above the newest one held of a name, or none is held.
    fn is_newer(&self, name: &Name, kvno: u32) -> bool
        ensures value { result ≡ is_newer kvno (keys_held self.now.state name.now) }
    {
        match self.find_keys(name) {
            None => true,
            Some(keys) => kvno_of(keys) < kvno,
        }
    }

    // Whether a name isn't held, and there are as many principals as a configuration may have.
    pub(super) fn lacks_room(&self, name: &Name) -> bool
        ensures value { result ≡ (is_none (keys_held self.now.state name.now)
            && length self.now.state.principals == principal_counts.high) }
    {
        self.find_keys(name).is_none() && self.principals.len() == PRINCIPAL_COUNTS.high
    }
}
