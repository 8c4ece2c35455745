//! The place of a name's keys among the principals.
ghost use Rattle.std.specs.Prelude.{◌≡◌, ◌<◌, ◌≤◌, IfOk, IsSome, true, length, map, vec_len, vec_capacity, None};
ghost use Rattle.std.specs.List.{insert};
ghost use Rattle.std.specs.List.Sorted.{IsStrictlySortedBy};
ghost use Rattle.chpw_rules.specs.Limits.{is_in, iteration_counts, principal_counts};
ghost use Rattle.chpw_rules.specs.Names.{is_name, name_cmp};
ghost use Rattle.chpw_record.specs.declared.record.KeyKind.TheVariants.{Adopt, Lift};
ghost use Rattle.chpw_table.specs.State.{keys_held, kept_count};
ghost use Rattle.chpw_table.specs.Updates.{keys_after, with_newest as with_newest_spec};
ghost use Rattle.chpw_table.specs.Holding.{are_holders};
ghost use Rattle.chpw_table.specs.Placing.{IsPlace, IsPlaced, placed, with_placed};

use super::changing::{put_keys, with_front};
use super::{Principal, Table, kept_by};
use chpw_ordered_keys::place_for;
use chpw_record::KeyRow;
use chpw_rules::{Items, Name};
use std::alloc::{AllocError, Global};

// Where the keys of a name go, with all the memory that they take.
#[derive(Drop)]
pub(super) enum Placement {
    // To the principal at this place, instead of its own.
    Replace { place: usize, keys: Items<KeyRow> },
    // To a principal that joins the others at this place.
    Insert { place: usize, principal: Principal },
    // Nowhere: the principal at this place leaves.
    Remove { place: usize },
}

impl Table {
    // The place of a key from the KDC: before the name's, of which the newest are kept, or with a principal of its own.
    pub(super) fn place_adopted(&self, name: &Name, key: KeyRow) -> Result<Placement, AllocError>
        requires name { is_name name.now ≡ true }
        requires count { is_in iteration_counts key.count ≡ true }
        requires room { keys_held self.now.state name.now ≡ None
            → length self.now.state.principals < principal_counts.high }
        ensures placed { IfOk result (λ p. IsPlaced self.now.state name.now
            (keys_after Adopt (kept_count self.now.state) key (keys_held self.now.state name.now)) p) }
    {
        let alloc = *self.principals.allocator();
        let kept = kept_by(self.standing.policy());
        match self.find(name) {
            Some((place, principal)) => {
                let keys = with_front(alloc, key, principal.keys.as_slice(), kept)?;
                Ok(Placement::Replace { place, keys })
            }
            None => {
                let place = self.place_for(name);
                let keys = with_front(alloc, key, &[], kept)?;
                let principal = Principal {
                    name: name.clone()?,
                    keys,
                };
                Ok(Placement::Insert { place, principal })
            }
        }
    }

    // The place of a key that comes instead of a name's newest.
    pub(super) fn place_lifted(&self, name: &Name, key: KeyRow) -> Result<Placement, AllocError>
        requires held { IsSome (keys_held self.now.state name.now) }
        requires count { is_in iteration_counts key.count ≡ true }
        ensures placed { IfOk result (λ p. IsPlaced self.now.state name.now
            (keys_after Lift (kept_count self.now.state) key (keys_held self.now.state name.now)) p) }
    {
        let Some((place, principal)) = self.find(name) else {
            unreachable!()
        };
        let alloc = *self.principals.allocator();
        let keys = with_newest(alloc, key, principal.keys.as_slice())?;
        Ok(Placement::Replace { place, keys })
    }

    // The place that a name leaves.
    pub(super) fn place_removed(&self, name: &Name) -> Placement
        requires held { IsSome (keys_held self.now.state name.now) }
        ensures placed { IsPlaced self.now.state name.now None result }
    {
        // A field is read, so that the type's invariant is known.
        let _ = &self.principals;
        let Some((place, _)) = self.find(name) else {
            unreachable!()
        };
        Placement::Remove { place }
    }

    // The place for a principal with this name.
    fn place_for(&self, name: &Name) -> usize
        requires absent { keys_held self.now.state name.now ≡ None }
        ensures within { result ≤ length self.now.state.principals }
        ensures order { IsStrictlySortedBy name_cmp
            (insert (map (λ p. p.name) self.now.state.principals) result name.now) }
    {
        // A field is read, so that the type's invariant is known.
        let _ = &self.principals;
        place_for(self.principals.as_slice(), name)
    }

    // Puts the keys in their place. It takes no memory.
    pub(super) fn put_placed(&mut self, placement: Placement)
        requires place { IsPlace placement (length self.old.state.principals) }
        requires holders { are_holders (placed placement self.old.state.principals) ≡ true }
        ensures value { self.new ≡ with_placed placement self.old }
    {
        put_in(&mut self.principals, placement);
    }
}

// Puts keys in their place, in the room that the vector has.
fn put_in(principals: &mut Vec<Principal>, placement: Placement)
    requires place { IsPlace placement (vec_len principals.old) }
    requires room { principal_counts.high ≤ vec_capacity principals.old }
    ensures value { principals.new.items ≡ placed placement principals.old.items }
    ensures room { principal_counts.high ≤ vec_capacity principals.new }
{
    match placement {
        Placement::Replace { place, keys } => put_keys(principals.as_mut_slice(), place, keys),
        Placement::Insert { place, principal } => {
            let _ = principals.insert(place, principal);
        }
        Placement::Remove { place } => {
            let _ = principals.remove(place);
        }
    }
}

// The key in place of the newest of these.
fn with_newest(alloc: Global, key: KeyRow, held: &[KeyRow]) -> Result<Items<KeyRow>, AllocError>
    ensures value { IfOk result (λ keys. keys ≡ with_newest_spec key held.now) }
{
    let [_, older @ ..] = held else {
        return Ok(Items::of(Vec::new(alloc)));
    };
    let mut keys = Vec::from_slice(alloc, &[key])?;
    keys.extend_from_slice(older)?;
    Ok(Items::of(keys))
}
