//! Restoring the key that a compact journal begins a principal with.
ghost use Rattle.std.specs.Prelude.{◌≡◌, ◌<◌, IfOk, IfErr, OnOk, OnErr, IsSome, true, length, map};
ghost use Rattle.chpw_rules.specs.Limits.{is_in, iteration_counts};
ghost use Rattle.chpw_table.specs.State.{State, keys_held};
ghost use Rattle.chpw_table.specs.Step.{with_key};
ghost use Rattle.chpw_table.specs.Agreement.{Agrees};
ghost use Rattle.chpw_table.specs.Entering.{with_keys_at};
ghost use Rattle.chpw_table.specs.Holding.{are_holders};
ghost use Rattle.chpw_table.specs.BaseKeys.{with_base_key, IsBaseRefused};

use super::changing::with_front;
use super::{KeyFault, Table};
use chpw_record::KeyRow;
use chpw_rules::{Items, Name};

impl Table {
    /// Gives a name this key alone, whatever version it has and whatever keys were held: a compact journal begins a
    /// principal with it. Refused if the name is unknown, or memory is refused; the version is never wrong. The rest of
    /// the table stays: it is no event. The key's iteration count is 1 to 16,777,216. After a fault nothing has
    /// changed.
    pub fn restore_base(&mut self, name: &Name, key: KeyRow) -> Result<(), KeyFault>
        requires count { is_in iteration_counts key.count ≡ true }
        ensures step { OnOk result ((s : State) → Agrees self.old.state s
            → IsSome (keys_held s name.now) × Agrees self.new.state (with_base_key name.now key s)) }
        ensures counts { (self.new.events ≡ self.old.events) × (self.new.seen ≡ self.old.seen)
            × (self.new.max_entries ≡ self.old.max_entries) }
        ensures first { IfErr result (λ fault. (s : State) → Agrees self.old.state s
            → IsBaseRefused s name.now fault) }
        ensures unchanged { OnErr result (self.new ≡ self.old) }
    {
        let (place, keys) = self.base_keys(name, key)?;
        self.put_kept(place, keys);
        Ok(())
    }

    // The name's place, and this key alone.
    fn base_keys(&self, name: &Name, key: KeyRow) -> Result<(usize, Items<KeyRow>), KeyFault>
        requires count { is_in iteration_counts key.count ≡ true }
        ensures place { IfOk result (λ r. r.0 < length self.now.state.principals) }
        ensures known { OnOk result (IsSome (keys_held self.now.state name.now)) }
        ensures keys { IfOk result (λ r.
            map (with_key 1 name.now key) self.now.state.principals
            ≡ with_keys_at r.0 r.1 self.now.state.principals) }
        ensures holders { IfOk result (λ r.
            are_holders (with_keys_at r.0 r.1 self.now.state.principals) ≡ true) }
        ensures first { IfErr result (λ fault. IsBaseRefused self.now.state name.now fault) }
    {
        let Some((place, principal)) = self.find(name) else {
            return Err(KeyFault::UnknownPrincipal);
        };
        let alloc = *self.principals.allocator();
        let keys = with_front(alloc, key, principal.keys.as_slice(), 1)?;
        Ok((place, keys))
    }
}
