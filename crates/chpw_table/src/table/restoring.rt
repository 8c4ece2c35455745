//! Replaying a kept key, and a kept count.
ghost use Rattle.std.specs.Prelude.{◌≡◌, ◌<◌, ◌==◌, ◌+◌, IfOk, IfErr, OnOk, OnErr, true, length, map};
ghost use Rattle.chpw_rules.specs.Limits.{is_in, iteration_counts};
ghost use Rattle.chpw_table.specs.State.{State, kept_count};
ghost use Rattle.chpw_table.specs.Step.{with_key};
ghost use Rattle.chpw_table.specs.Agreement.{Agrees};
ghost use Rattle.chpw_table.specs.Entering.{with_keys_at};
ghost use Rattle.chpw_table.specs.Holding.{are_holders};
ghost use Rattle.chpw_table.specs.Restoring.{with_kept_count, with_kept_key, with_held_at, IsNextKey, IsKeyRefused};

use super::changing::{put_keys, with_front};
use super::{Table, kept_by};
use crate::key::kvno_of;
use chpw_record::KeyRow;
use chpw_rules::{Items, Name};
use std::alloc::AllocError;

/// Why a kept key isn't replayed, in the order of the checks.
#[derive(Clone, Copy, Drop)]
pub enum KeyFault {
    /// There is no such principal.
    UnknownPrincipal,
    /// The version is not the one after the newest held; of a key from the KDC, it is not above that.
    WrongVersion,
    /// The key would add a principal, and there are as many as a configuration may have.
    TooMany,
    /// A growth was refused.
    Memory,
}

impl From<AllocError> for KeyFault {
    ghost use Rattle.chpw_table.specs.declared.table.restoring.KeyFault.TheVariants.{Memory};

    ghost from_gives = { λ _ fault. fault ≡ Memory };

    fn from(_error: AllocError) -> KeyFault {
        KeyFault::Memory
    }
}

impl Table {
    /// Adds a key that a change made in a former run before the name's, as that change did: the newest are kept, as
    /// many as the policy's depth and at least one. The rest of the table stays: it is no event. The key's iteration
    /// count is 1 to 16,777,216. After a fault nothing has changed.
    pub fn restore_key(&mut self, name: &Name, key: KeyRow) -> Result<(), KeyFault>
        requires count { is_in iteration_counts key.count ≡ true }
        ensures step { OnOk result ((s : State) → Agrees self.old.state s
            → IsNextKey s name.now key × Agrees self.new.state (with_kept_key name.now key s)) }
        ensures counts { (self.new.events ≡ self.old.events) × (self.new.seen ≡ self.old.seen)
            × (self.new.max_entries ≡ self.old.max_entries) }
        ensures first { IfErr result (λ fault. (s : State) → Agrees self.old.state s
            → IsKeyRefused s name.now key fault) }
        ensures unchanged { OnErr result (self.new ≡ self.old) }
    {
        let (place, keys) = self.kept_keys(name, key)?;
        self.put_kept(place, keys);
        Ok(())
    }

    /// Replays a count that was raised in a former run, 1 to 16,777,216: the count of new keys becomes the greater of
    /// this and the present one. The rest of the table stays: it is no event.
    pub fn restore_count(&mut self, count: u32)
        requires count { is_in iteration_counts count ≡ true }
        ensures step { (s : State) → Agrees self.old.state s
            → Agrees self.new.state (with_kept_count count s) }
        ensures counts { (self.new.events ≡ self.old.events) × (self.new.seen ≡ self.old.seen)
            × (self.new.max_entries ≡ self.old.max_entries) }
    {
        self.keep_count(count);
    }

    // Replays the count, by the table's own state.
    fn keep_count(&mut self, count: u32)
        requires count { is_in iteration_counts count ≡ true }
        ensures value { self.new ≡ record self.old { state = with_kept_count count self.old.state } }
    {
        self.count = self.count.max(count);
    }

    // Replaces a principal's keys.
    pub(super) fn put_kept(&mut self, place: usize, keys: Items<KeyRow>)
        requires place { place < length self.old.state.principals }
        requires holders { are_holders (with_keys_at place keys self.old.state.principals) ≡ true }
        ensures value { self.new ≡ with_held_at place keys self.old }
    {
        put_keys(self.principals.as_mut_slice(), place, keys);
    }

    // The name's place, and its keys with this one before them.
    fn kept_keys(&self, name: &Name, key: KeyRow) -> Result<(usize, Items<KeyRow>), KeyFault>
        requires count { is_in iteration_counts key.count ≡ true }
        ensures place { IfOk result (λ r. r.0 < length self.now.state.principals) }
        ensures next { OnOk result (IsNextKey self.now.state name.now key) }
        ensures keys { IfOk result (λ r.
            map (with_key (kept_count self.now.state) name.now key) self.now.state.principals
            ≡ with_keys_at r.0 r.1 self.now.state.principals) }
        ensures holders { IfOk result (λ r.
            are_holders (with_keys_at r.0 r.1 self.now.state.principals) ≡ true) }
        ensures first { IfErr result (λ fault. IsKeyRefused self.now.state name.now key fault) }
    {
        let Some((place, principal)) = self.find(name) else {
            return Err(KeyFault::UnknownPrincipal);
        };
        let held = principal.keys.as_slice();
        if !is_next(kvno_of(held), key.kvno) {
            return Err(KeyFault::WrongVersion);
        }
        let alloc = *self.principals.allocator();
        let keys = with_front(alloc, key, held, kept_by(self.standing.policy()))?;
        Ok((place, keys))
    }
}

// Whether a version is the one after another.
fn is_next(newest: u32, kvno: u32) -> bool
    ensures value { result ≡ (kvno == newest + 1) }
{
    newest < kvno && kvno - newest == 1
}
