//! The table: the principals with their keys, and the used ids.
ghost use Rattle.std.specs.Prelude.{◌≡◌, ◌≤◌, ◌<◌, ◌&&◌, not, length, All, MatchBool, IfOk, IfSome, Some};
ghost use Rattle.std.specs.Prelude.{true, find, max, map, position, option_copied, option_map, slice_get};
ghost use Rattle.std.specs.List.{IsDistinct};
ghost use Rattle.std.specs.List.Sorted.{IsStrictlySortedBy};
ghost use Rattle.chpw_rules.specs.Names.{is_name, is_same_name, name_cmp};
ghost use Rattle.chpw_rules.specs.Limits.{is_in, entry_counts, iteration_counts};
ghost use Rattle.chpw_rules.specs.Fitting.{config_fits};
ghost use Rattle.chpw_table.specs.Agreement.{Agrees};
ghost use Rattle.chpw_table.specs.State.{State, opening_of, keys_held, is_used, new_count};
ghost use Rattle.chpw_table.specs.Requests.{is_same_id};
ghost use Rattle.chpw_table.specs.Times.{is_later};
ghost use Rattle.chpw_table.specs.Holding.{StandsAt};
ghost use Rattle.chpw_table.specs.Lookups.{lookup_of, lookup_with, StandsOnce};
ghost use Rattle.chpw_table.specs.declared.request.RequestId.{RequestId};

mod base;
mod changing;
mod decision;
mod opening;
mod placing;
mod planning;
mod preparing;
mod raising;
mod reopening;
mod restoring;
mod restoring_updates;
mod resuming;
mod step;
mod updating;
mod wanted;

use crate::counts::Counts;
use crate::key::{counts_of, kvno_of};
use crate::request::RequestId;
use crate::standing::StandingRules;
use chpw_ordered_keys::{HasKey, KeyTree};
use chpw_record::KeyRow;
use chpw_rules::{Config, Items, Name, Policy};
use opening::opening_table;
pub use preparing::{Prepared, RowChange};
pub use reopening::MOST_CARRIED;
pub use restoring::KeyFault;
pub use resuming::ResumeState;
use std::alloc::{AllocError, Global};
use std::marker::Model;
pub use updating::PreparedUpdate;

/// A principal and its keys, newest first.
#[derive(Drop)]
pub struct Principal {
    pub name: Name,
    pub keys: Items<KeyRow>,
}

/// What a lookup shows of a principal.
#[derive(Drop)]
pub struct Lookup {
    /// The kvno of its newest keys.
    pub kvno: u32,
    /// The iteration counts of its keys, newest first.
    pub held: Counts,
    /// The iteration count of new keys: the policy's, until it is raised.
    pub policy: u32,
    /// The changes accepted so far, of all principals, raises and updates among them.
    pub seen: u32,
}

// Principals are ordered by their names.
impl HasKey<Name> for Principal {
    ghost key_of = { λ p. p.name };

    fn key(&self) -> &Name {
        &self.name
    }
}

/// The principals in the order of their names, and the used ids in the order of their times.
///
/// Contracts see a table as a `Held`: a state, how many events were decided, how many changes accepted, and how many
/// events are allowed. A table forgets ids that are too old to be judged again; so its contracts speak of each state
/// that it agrees with (`Agrees`), which may have all used ids.
#[derive(Drop)]
pub struct Table {
    standing: StandingRules,
    // There is room for as many as a configuration may have, so that one joins them without taking memory.
    principals: Vec<Principal>,
    // Each in the memory that it brought.
    used: KeyTree<RequestId>,
    clock: i64,
    broken: bool,
    // The iteration count of new keys.
    count: u32,
    events: u32,
    seen: u32,
    max_entries: u32,
}

impl Model for Table {
    ghost use Rattle.std.specs.Prelude.{◌≡◌, ◌≤◌, ◌+◌, length, IsTrue, vec_capacity};
    ghost use Rattle.std.specs.List.Sorted.{IsStrictlySortedBy};
    ghost use Rattle.chpw_rules.specs.Limits.{is_in, entry_counts, iteration_counts, principal_counts};
    ghost use Rattle.chpw_rules.specs.Fitting.{policy_fits};
    ghost use Rattle.chpw_table.specs.Times.{IsTime};
    ghost use Rattle.chpw_table.specs.Agreement.{Held};
    ghost use Rattle.chpw_table.specs.Holding.{are_holders, id_cmp, young_ids};

    ghost Value = { Held };

    ghost view = { λ t. record {
      state = record {
        fixed = t.standing;
        principals = t.principals.items;
        used = t.used;
        clock = t.clock;
        broken = t.broken;
        count = t.count;
      };
      events = t.events;
      seen = t.seen;
      max_entries = t.max_entries;
    } };

    ghost invariant = { λ t. (t.seen ≤ t.events) × (t.events ≤ t.max_entries)
        × IsTrue (is_in entry_counts t.max_entries) × IsTime t.clock
        × IsTrue (policy_fits t.standing.policy) × IsTrue (are_holders t.principals.items)
        × (length t.used ≤ t.events + 2147483648) × IsStrictlySortedBy id_cmp t.used
        × (young_ids t.clock t.used ≡ t.used) × IsTrue (is_in iteration_counts t.count)
        × (principal_counts.high ≤ vec_capacity t.principals) };
}

impl Table {
    /// The table that a configuration opens with: for each principal the newest keys, as many as the policy's depth and
    /// at least one; clock 0, no id used, no event decided; new keys under the policy's iteration count. The
    /// configuration fits (`Config::fits`). A request whose ctime is not after `quiet_until`, seconds since 1970, will
    /// be refused; -1 refuses none.
    pub fn start(alloc: Global, config: Config, quiet_until: i64) -> Result<Table, AllocError>
        requires fits { config_fits config ≡ true }
        ensures opening { IfOk result (λ t. Agrees t.state (opening_of config quiet_until)) }
        ensures counts { IfOk result (λ t. (t.events ≡ 0) × (t.seen ≡ 0)
            × (t.max_entries ≡ config.max_entries)) }
    {
        let kept = kept_by(config.policy);
        let count = config.policy.iterations;
        let principals = opening_table(alloc, config.principals.into_vec(), kept)?;
        let standing = StandingRules::of(config.realm, config.policy, config.rules, quiet_until);
        Ok(Table {
            standing,
            principals,
            used: KeyTree::new(),
            clock: 0,
            broken: false,
            count,
            events: 0,
            seen: 0,
            max_entries: config.max_entries,
        })
    }

    /// Whether the table has decided as many events as allowed, 1 to 1,048,576.
    pub fn is_full(&self) -> bool
        ensures value { MatchBool result (self.now.events ≡ self.now.max_entries)
            (self.now.events < self.now.max_entries) }
        ensures range { (entry_counts.low ≤ self.now.max_entries)
            × (self.now.max_entries ≤ entry_counts.high) }
    {
        self.events == self.max_entries
    }

    /// How many changes it has accepted, of all principals, raises and updates among them.
    pub fn changes_accepted(&self) -> u32
        ensures value { result ≡ self.now.seen }
        ensures few { result ≤ entry_counts.high }
    {
        self.seen
    }

    /// The name of the principal with this number, from 0 in the order of the names; none from their number on. No name
    /// has two numbers. It has 1 to 8 components of 1 to 128 bytes.
    pub fn name_at(&self, place: u32) -> Option<&Name>
        ensures value { option_copied result
            ≡ slice_get (map (λ p. p.name) self.now.state.principals) place }
        ensures once { IfSome result (λ name. StandsOnce self.now.state name.now place) }
        ensures fits { IfSome result (λ name. is_name name.now ≡ true) }
        ensures order { IsStrictlySortedBy name_cmp (map (λ p. p.name) self.now.state.principals) }
    {
        self.principal_at(place).map(|p| &p.name)
    }

    /// The name with this number, as `name_at` gives it, and what `lookup` shows of it.
    pub fn row_at(&self, place: u32) -> Option<(&Name, Lookup)>
        ensures name { option_map (λ row. row.0.now) result
            ≡ slice_get (map (λ p. p.name) self.now.state.principals) place }
        ensures value { IfSome result (λ row. lookup_of self.now row.0.now ≡ Some row.1) }
        ensures positive { IfSome result (λ row. (1 ≤ row.1.policy) × All (λ n. 1 ≤ n) row.1.held) }
        ensures order { IsStrictlySortedBy name_cmp (map (λ p. p.name) self.now.state.principals) }
    {
        match self.principal_at(place) {
            None => None,
            Some(principal) => Some((&principal.name, self.lookup_from(principal.keys.as_slice()))),
        }
    }

    fn principal_at(&self, place: u32) -> Option<&Principal>
        ensures value { option_copied result ≡ slice_get self.now.state.principals place }
        ensures stands { IfSome result (λ p. StandsAt self.now.state place p.now) }
        ensures order { IsStrictlySortedBy name_cmp (map (λ p. p.name) self.now.state.principals) }
    {
        // A field is read, so that the type's invariant is known.
        let _ = &self.principals;
        self.get(place)
    }

    fn get(&self, place: u32) -> Option<&Principal>
        ensures value { option_copied result ≡ slice_get self.now.state.principals place }
    {
        self.principals.get(place as usize)
    }

    /// The number of a name among the principals, which are in the order of their names, from 0; none for an unknown
    /// one. `name_at` is the inverse.
    pub fn number_of(&self, name: &Name) -> Option<u32>
        ensures value { result
            ≡ position (λ p. is_same_name p.name name.now) self.now.state.principals }
        ensures named { IfSome result (λ number.
            slice_get (map (λ p. p.name) self.now.state.principals) number ≡ Some name.now) }
    {
        // A field is read, so that the type's invariant is known.
        let _ = &self.principals;
        match self.place_of(name) {
            None => None,
            Some(place) => Some(place as u32),
        }
    }

    /// How many ids are held: the used ones that are not too old to be judged, each once.
    pub fn ids_held(&self) -> u32
        ensures value { result ≡ length self.now.state.used }
        ensures once { IsDistinct is_same_id self.now.state.used }
        ensures held { (s : State) → Agrees self.now.state s → (id : RequestId)
            → is_used self.now.state id ≡ (is_used s id && not (is_later s.clock id.ctime)) }
    {
        self.used.len() as u32
    }

    /// Its policy. The depth is at most 16, and the iteration count at least 1.
    pub fn policy(&self) -> Policy
        ensures value { result ≡ self.now.state.fixed.policy }
        ensures depth { max result.depth 1 ≤ 16 }
        ensures iterations { 1 ≤ result.iterations }
    {
        self.standing.policy()
    }

    /// How many principals it holds.
    pub fn principals(&self) -> usize
        ensures value { result ≡ length self.now.state.principals }
    {
        self.principals.len()
    }

    /// The realm of its principals.
    pub fn realm(&self) -> &[u8]
        ensures value { result.now ≡ self.now.state.fixed.realm }
    {
        self.standing.realm()
    }

    /// Until when it is quiet, seconds since 1970: a request whose ctime is not after that is refused.
    pub fn quiet_until(&self) -> i64
        ensures value { result ≡ self.now.state.fixed.quiet_until }
    {
        self.standing.quiet_until()
    }

    /// A copy of what no event changes of it.
    pub fn standing_rules(&self) -> Result<StandingRules, AllocError>
        ensures value { IfOk result (λ rules. rules ≡ self.now.state.fixed) }
    {
        self.standing.clone()
    }

    /// The iteration count of new keys, 1 to 16,777,216: the policy's, until it is raised.
    pub fn count(&self) -> u32
        ensures value { result ≡ new_count self.now.state }
        ensures range { is_in iteration_counts result ≡ true }
        ensures positive { 1 ≤ result }
    {
        self.count
    }

    /// What the table shows of a name; none for an unknown one. The counts are at least 1, and 1 to
    /// 16 of them are held.
    pub fn lookup(&self, name: &Name) -> Option<Lookup>
        ensures value { result ≡ lookup_of self.now name.now }
        ensures few { IfSome result (λ l. (1 ≤ length l.held) × (length l.held ≤ 16)) }
        ensures positive { IfSome result (λ l. (1 ≤ l.policy) × All (λ n. 1 ≤ n) l.held) }
    {
        match self.keys_of(name) {
            None => None,
            Some(keys) => Some(self.lookup_from(keys)),
        }
    }

    // What is shown of a name with these keys.
    fn lookup_from(&self, keys: &[KeyRow]) -> Lookup
        requires few { length keys.now ≤ 17 }
        ensures value { result ≡ lookup_with self.now keys.now }
        ensures positive { All (λ k. 1 ≤ k.count) keys.now
            → (1 ≤ result.policy) × All (λ n. 1 ≤ n) result.held }
    {
        Lookup {
            kvno: kvno_of(keys),
            held: counts_of(keys),
            policy: self.count,
            seen: self.seen,
        }
    }

    /// The keys of a name, 1 to 16, newest first; none for an unknown one.
    pub fn keys_of(&self, name: &Name) -> Option<&[KeyRow]>
        ensures value { option_copied result ≡ keys_held self.now.state name.now }
        ensures few { IfSome result (λ keys. (1 ≤ length keys.now) × (length keys.now ≤ 16)) }
        ensures positive { IfSome result (λ keys. All (λ k. 1 ≤ k.count) keys.now) }
    {
        // A field is read, so that the type's invariant is known.
        let _ = &self.principals;
        self.find_keys(name)
    }

    fn find_keys(&self, name: &Name) -> Option<&[KeyRow]>
        ensures value { option_copied result ≡ keys_held self.now.state name.now }
    {
        // A field is read, so that the type's invariant is known.
        let _ = &self.principals;
        match self.find(name) {
            None => None,
            Some((_, principal)) => Some(principal.keys.as_slice()),
        }
    }
}

// How many keys of a principal are kept.
fn kept_by(policy: Policy) -> usize
    ensures value { result ≡ max policy.depth 1 }
{
    usize::from(policy.depth.max(1))
}
