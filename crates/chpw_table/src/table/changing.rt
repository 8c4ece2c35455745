//! A change of one principal's keys.
ghost use Rattle.std.specs.Prelude.{[], ◌∷◌, ◌≡◌, ◌≢◌, ◌<◌, ◌≤◌, IfOk, IfSome, IfNone, true, false, length, map, take, position, is_none, unwrap_or};
ghost use Rattle.chpw_rules.specs.Names.{is_same_name};
ghost use Rattle.chpw_table.specs.State.{keys_held, new_count, kept_count};
ghost use Rattle.chpw_table.specs.Requests.{target_of, digest_of};
ghost use Rattle.chpw_table.specs.Digests.{has_count};
ghost use Rattle.chpw_table.specs.Decision.{key_row, newest_kvno};
ghost use Rattle.chpw_table.specs.Verdicts.{is_done};
ghost use Rattle.chpw_table.specs.Step.{new_key, with_key};
ghost use Rattle.chpw_table.specs.Holding.{are_holders};
ghost use Rattle.chpw_table.specs.Entering.{with_keys_at, IsAt};
ghost use Rattle.chpw_record.specs.Records.{record_bytes as record_bytes_spec};

use super::{Principal, Table, kept_by};
use crate::key::{kvno_of, newest};
use crate::request::Opened;
use chpw_ordered_keys::place_of;
use chpw_record::{KeyRow, record_bytes};
use chpw_rules::{Items, Name};
use std::alloc::{AllocError, Global};

// A change with all the memory that it needs.
#[derive(Drop)]
pub(super) struct PreparedChange {
    // The principal's place.
    pub(super) place: usize,
    // Its keys from then on.
    pub(super) keys: Items<KeyRow>,
    // What the journal gets.
    pub(super) record: Vec<u8>,
    ghost few: { length keys ≤ 16 },
}

impl Table {
    // The change for a request that no row refuses.
    pub(super) fn change(&self, opened: &Opened) -> Result<PreparedChange, AllocError>
        requires done { is_done (key_row self.now.state opened.now false) ≡ true }
        requires derived { has_count (digest_of opened.now).derived (new_count self.now.state)
            ≡ true }
        ensures place { IfOk result (λ c. c.place < length self.now.state.principals) }
        ensures keys { IfOk result (λ c.
            map (with_key (kept_count self.now.state) (target_of opened.now).name
            (new_key self.now.state opened.now)) self.now.state.principals
            ≡ with_keys_at c.place c.keys self.now.state.principals) }
        ensures holders { IfOk result (λ c.
            are_holders (with_keys_at c.place c.keys self.now.state.principals) ≡ true) }
        ensures record_of { IfOk result (λ c. c.record.items
            ≡ record_bytes_spec (target_of opened.now).name (new_key self.now.state opened.now)) }
        ensures newest { IfOk result (λ c. c.keys
            ≡ take (kept_count self.now.state) (new_key self.now.state opened.now
            ∷ unwrap_or (keys_held self.now.state (target_of opened.now).name) [])) }
    {
        let name = opened.target_name();
        let Some((place, principal)) = self.find(name) else {
            unreachable!()
        };
        let held = principal.keys.as_slice();
        let key = self.new_key(held, opened);
        let alloc = *self.principals.allocator();
        let keys = with_front(alloc, key, held, kept_by(self.standing.policy()))?;
        let record = record_bytes(alloc, name, &key)?;
        Ok(PreparedChange {
            place,
            keys,
            record,
        })
    }

    // The key that the request makes, to come before these.
    fn new_key(&self, held: &[KeyRow], opened: &Opened) -> KeyRow
        requires held { unwrap_or (keys_held self.now.state (target_of opened.now).name) []
            ≡ held.now }
        requires version { newest_kvno held.now ≢ 4294967295 }
        requires derived { has_count (digest_of opened.now).derived (new_count self.now.state)
            ≡ true }
        ensures value { result ≡ new_key self.now.state opened.now }
    {
        let Some(digest) = opened.digest() else {
            unreachable!()
        };
        let count = self.count;
        let Some(keys) = digest.derived.keys_under(count) else {
            unreachable!()
        };
        let aes128 = keys.0;
        let aes256 = keys.1;
        KeyRow {
            kvno: kvno_of(held) + 1,
            count,
            aes128,
            aes256,
        }
    }

    // A name's principal and its place.
    pub(super) fn find(&self, name: &Name) -> Option<(usize, &Principal)>
        ensures at { IfSome result (λ r. IsAt self.now.state name.now r.0 r.1.now) }
        ensures none { IfNone result (is_none (keys_held self.now.state name.now) ≡ true) }
    {
        match self.place_of(name) {
            None => None,
            Some(place) => Some((place, &self.principals[place])),
        }
    }

    // Found by binary search, since names are sorted.
    pub(super) fn place_of(&self, name: &Name) -> Option<usize>
        ensures value { result
            ≡ position (λ p. is_same_name p.name name.now) self.now.state.principals }
    {
        // A field is read, so that the type's invariant is known.
        let _ = &self.principals;
        place_of(self.principals.as_slice(), name)
    }
}

// The key before these, of which the newest are kept.
pub(super) fn with_front(
    alloc: Global,
    key: KeyRow,
    held: &[KeyRow],
    kept: usize,
) -> Result<Items<KeyRow>, AllocError>
    requires kept { 1 ≤ kept }
    ensures value { IfOk result (λ keys. keys ≡ take kept (key ∷ held.now)) }
{
    let mut keys = Vec::from_slice(alloc, &[key])?;
    keys.extend_from_slice(newest(held, kept - 1))?;
    Ok(Items::of(keys))
}

// Replaces a principal's keys.
pub(super) fn put_keys(principals: &mut [Principal], place: usize, keys: Items<KeyRow>)
    requires place { place < length principals.old }
    ensures value { principals.new ≡ with_keys_at place keys principals.old }
{
    principals[place].keys = keys;
}
