//! Whether a configuration is within the limits.
ghost use Rattle.std.specs.Prelude.{Bool, ◌≡◌, true};
ghost use Rattle.std.specs.List.{list_any};
ghost use Rattle.chpw_rules.specs.Ascending.{ascend_from, names_ascend};
ghost use Rattle.chpw_rules.specs.Fitting.{are_distinct, config_fits, descend_from, is_aes_key};
ghost use Rattle.chpw_rules.specs.Fitting.{is_same_principal, is_same_service_key, key_fits, kvnos_descend};
ghost use Rattle.chpw_rules.specs.Fitting.{policy_fits, principal_fits, principals_fit, rule_fits};
ghost use Rattle.chpw_rules.specs.Fitting.{rules_fit, service_fits, service_key_fits, target_fits};

use crate::config::{Config, KeyBytes, PrincipalRow, ServiceRow};
use crate::limits::{
    DEPTHS, ENTRY_COUNTS, ETYPES, ITERATION_COUNTS, KEY_COUNTS, KVNOS, Limited, MIN_CLASS_COUNTS,
    MIN_LENGTHS, PRINCIPAL_COUNTS, REALM_LENGTHS, RULE_COUNTS, SERVICE_KEY_COUNTS, all_fit,
    key_length,
};
use crate::name::Name;
use crate::policy::Policy;
use crate::rules::Rule;

impl Config {
    /// Whether every value is within its limits, no service key and no name is repeated, and each principal's version
    /// numbers go down. An empty list of service keys fits.
    ///
    /// Names that are in their order are compared with the one before alone. Others are each compared with all before
    /// them, which is quadratic in the number of principals.
    pub fn fits(&self) -> bool
        ensures value { result ≡ config_fits self.now }
    {
        self.fits_with(principals_fit(self.principals.as_slice()))
    }

    /// What `fits` says of a configuration in which no name is repeated. No names are compared, so the time is linear in
    /// the number of keys, whatever order the names are in.
    pub fn fits_with_distinct_names(&self) -> bool
        requires once { are_distinct is_same_principal self.now.principals ≡ true }
        ensures value { result ≡ config_fits self.now }
    {
        self.fits_with(distinct_principals_fit(self.principals.as_slice()))
    }

    // Whether all but the principals are within the limits, and they are.
    fn fits_with(&self, principals: bool) -> bool
        requires fit { principals ≡ principals_fit self.now.principals }
        ensures value { result ≡ config_fits self.now }
    {
        REALM_LENGTHS.allow(self.realm.as_slice().len())
            && ENTRY_COUNTS.allow(self.max_entries as usize)
            && service_fits(self.service.as_slice())
            && policy_fits(&self.policy)
            && rules_fit(self.rules.list.as_slice())
            && principals
    }
}

fn policy_fits(policy: &Policy) -> bool
    ensures value { result ≡ policy_fits policy.now }
{
    MIN_LENGTHS.allow(policy.min_length as usize)
        && MIN_CLASS_COUNTS.allow(policy.min_classes as usize)
        && DEPTHS.allow(policy.depth as usize)
        && ITERATION_COUNTS.allow(policy.iterations as usize)
}

fn service_fits(keys: &[ServiceRow]) -> bool
    ensures value { result ≡ service_fits keys.now }
{
    keys.len() <= SERVICE_KEY_COUNTS.high && all_fit(keys) && are_distinct(keys)
}

impl Limited for ServiceRow {
    ghost fits = { service_key_fits };

    fn fits(&self) -> bool {
        KVNOS.allow(self.kvno as usize) && is_aes_key(self.etype, self.key.as_slice())
    }
}

fn is_aes_key(etype: i32, key: &[u8]) -> bool
    ensures value { result ≡ is_aes_key etype key.now }
{
    match usize::try_from(etype) {
        Ok(etype) => ETYPES.allow(etype) && key.len() == key_length(etype),
        Err(_) => false,
    }
}

fn rules_fit(rules: &[Rule]) -> bool
    ensures value { result ≡ rules_fit rules.now }
{
    RULE_COUNTS.allow(rules.len()) && all_fit(rules)
}

impl Limited for Rule {
    ghost fits = { rule_fits };

    fn fits(&self) -> bool {
        self.actor.fits() && target_fits(&self.target)
    }
}

fn target_fits(target: &Option<Name>) -> bool
    ensures value { result ≡ target_fits target.now }
{
    match target {
        None => true,
        Some(name) => name.fits(),
    }
}

fn principals_fit(principals: &[PrincipalRow]) -> bool
    ensures value { result ≡ principals_fit principals.now }
{
    PRINCIPAL_COUNTS.allow(principals.len())
        && all_fit(principals)
        && have_distinct_names(principals)
}

fn distinct_principals_fit(principals: &[PrincipalRow]) -> bool
    requires once { are_distinct is_same_principal principals.now ≡ true }
    ensures value { result ≡ principals_fit principals.now }
{
    PRINCIPAL_COUNTS.allow(principals.len()) && all_fit(principals)
}

#[tactic(auto, using(crate::proofs::AscendingLemmas::ascending_distinct))]
fn have_distinct_names(principals: &[PrincipalRow]) -> bool
    ensures value { result ≡ are_distinct is_same_principal principals.now }
{
    names_ascend(principals) || are_distinct(principals)
}

// Whether each name is above the one before it.
fn names_ascend(principals: &[PrincipalRow]) -> bool
    ensures value { result ≡ names_ascend principals.now }
{
    match principals {
        [] => true,
        [first, rest @ ..] => ascend_from(&first.name, rest),
    }
}

fn ascend_from(first: &Name, principals: &[PrincipalRow]) -> bool
    ensures value { result ≡ ascend_from first.now principals.now }
{
    let mut last = first;
    for row in principals {
        if !last.cmp(&row.name).is_lt() {
            return false;
        }
        last = &row.name;
    }
    true
}

impl Limited for PrincipalRow {
    ghost fits = { principal_fits };

    fn fits(&self) -> bool {
        let keys = self.keys.as_slice();
        self.name.fits() && KEY_COUNTS.allow(keys.len()) && all_fit(keys) && kvnos_descend(keys)
    }
}

impl Limited for KeyBytes {
    ghost fits = { key_fits };

    fn fits(&self) -> bool {
        KVNOS.allow(self.kvno as usize) && ITERATION_COUNTS.allow(self.iterations as usize)
    }
}

fn kvnos_descend(keys: &[KeyBytes]) -> bool
    ensures value { result ≡ kvnos_descend keys.now }
{
    match keys {
        [] => true,
        [first, rest @ ..] => descend_from(first.kvno, rest),
    }
}

fn descend_from(mut newer: u32, keys: &[KeyBytes]) -> bool
    ensures value { result ≡ descend_from newer keys.now }
{
    for key in keys {
        if key.kvno >= newer {
            return false;
        }
        newer = key.kvno;
    }
    true
}

/// What may be in its list only once.
pub trait Identified {
    ghost same: { Self → Self → Bool };

    /// Whether the two may not be in one list.
    fn is_same(&self, other: &Self) -> bool
        ensures { result ≡ same self.now other.now };
}

impl Identified for ServiceRow {
    ghost same = { is_same_service_key };

    fn is_same(&self, other: &Self) -> bool {
        self.etype == other.etype && self.kvno == other.kvno
    }
}

impl Identified for PrincipalRow {
    ghost same = { is_same_principal };

    fn is_same(&self, other: &Self) -> bool {
        self.name.is_same(&other.name)
    }
}

/// Whether an element of the list is the same as the item.
pub fn is_in_list<T: Identified>(item: &T, list: &[T]) -> bool
    ensures value { result ≡ list_any (T.same item.now) list.now }
{
    list.iter().any(|other| item.is_same(other))
}

fn are_distinct<T: Identified>(list: &[T]) -> bool
    ensures value { result ≡ are_distinct T.same list.now }
{
    for (place, item) in list.iter().enumerate() {
        if is_in_list(item, &list[..place]) {
            return false;
        }
    }
    true
}
