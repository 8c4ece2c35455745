//! The configuration from its file.
ghost use Rattle.std.specs.Prelude.{◌≡◌, ◌≤◌, ◌∷◌, ◌++◌, [], IfOk, IsTrue, List, length};
ghost use Rattle.std.specs.Result.{result_map_both};
ghost use Rattle.toml.specs.View.{items_view, table_view, view};
ghost use Rattle.chpw_rules.specs.declared.name.Name.{Name as NameOf};
ghost use Rattle.chpw_config.specs.Faults.{UnlessMemory};
ghost use Rattle.chpw_rules.specs.Fitting.{config_fits};
ghost use Rattle.chpw_config.specs.Seen.{Knows};
ghost use Rattle.chpw_config.specs.Rows.{comes_after, key_row, names_of, new_name, policy_of, principal_row, rule_row, service_row, walk};
ghost use Rattle.chpw_config.specs.Settings.{settings, settings_of};

use crate::fault::{ConfigError, ConfigFault, ConfigFaultKind, Location, Part};
use crate::seen::{add_name, no_names};
use chpw_rules::{
    AES128_LENGTH, AES256_LENGTH, Config, DEPTHS, ENTRY_COUNTS, ETYPES, ITERATION_COUNTS, Items,
    KEY_COUNTS, KVNOS, KeyBytes, MIN_CLASS_COUNTS, MIN_LENGTHS, Name, PRINCIPAL_COUNTS, Policy,
    PrincipalRow, REALM_LENGTHS, RULE_COUNTS, Rule, Rules, SERVICE_KEY_COUNTS, ServiceRow,
    is_in_list, key_length,
};
use std::alloc::Global;
use std::collections::BTreeSet;
use toml::{Table, Value};

/// The most events of a history if a file doesn't say.
pub(crate) const DEFAULT_ENTRIES: usize = ENTRY_COUNTS.high;

#[tactic(auto, unfolding(crate::specs::Rows::policy_of))]
fn read_policy(table: &Table) -> Result<Policy, ConfigFault>
    ensures value { result ≡ policy_of (table_view table.now) }
{
    let at = Location::of(Part::Policy, 0);
    Ok(Policy {
        min_length: at.number(table, "min_length", MIN_LENGTHS)? as u32,
        min_classes: at.number(table, "min_classes", MIN_CLASS_COUNTS)? as u8,
        depth: at.number(table, "depth", DEPTHS)? as u8,
        iterations: at.number(table, "iterations", ITERATION_COUNTS)? as u32,
        set_needs_initial: at.flag(table, "set_needs_initial")?,
    })
}

#[tactic(auto, unfolding(crate::specs::Rows::service_row))]
fn read_service_key(
    alloc: Global,
    before: &[ServiceRow],
    value: &Value,
) -> Result<ServiceRow, ConfigError>
    ensures value { UnlessMemory result (service_row before.now (view value.now)) }
{
    let at = Location::of(Part::ServiceKey, before.len());
    let table = at.table_in(value)?;
    let kvno = at.number(table, "kvno", KVNOS)?;
    let etype = at.number(table, "etype", ETYPES)?;
    let key = at.hex_key(alloc, table, "key", key_length(etype))?;
    let row = ServiceRow {
        kvno: kvno as u32,
        etype: etype as i32,
        key: Items::of(key),
    };
    if is_in_list(&row, before) {
        return Err(ConfigError::Fault(at.fault(ConfigFaultKind::Duplicate)));
    }
    Ok(row)
}

fn read_service_keys(alloc: Global, list: &[Value]) -> Result<Vec<ServiceRow>, ConfigError>
    ensures value { UnlessMemory (result_map_both (λ keys. keys.items) (λ error. error) result)
        (walk service_row [] (items_view list.now)) }
{
    let mut keys = Vec::with_capacity(alloc, list.len())?;
    for value in list {
        let key = read_service_key(alloc, keys.as_slice(), value)?;
        keys.push(key)?;
    }
    Ok(keys)
}

#[tactic(auto, unfolding(crate::specs::Rows::rule_row))]
fn read_rule(alloc: Global, before: &[Rule], value: &Value) -> Result<Rule, ConfigError>
    ensures value { UnlessMemory result (rule_row before.now (view value.now)) }
{
    let at = Location::of(Part::Rule, before.len());
    let table = at.table_in(value)?;
    let actor = at.name(alloc, table, "actor")?.name;
    let target = at.target(alloc, table, "target")?;
    Ok(Rule { actor, target })
}

fn read_rules(alloc: Global, list: &[Value]) -> Result<Vec<Rule>, ConfigError>
    ensures value { UnlessMemory (result_map_both (λ rules. rules.items) (λ error. error) result)
        (walk rule_row [] (items_view list.now)) }
{
    let mut rules = Vec::with_capacity(alloc, list.len())?;
    for value in list {
        let rule = read_rule(alloc, rules.as_slice(), value)?;
        rules.push(rule)?;
    }
    Ok(rules)
}

#[tactic(auto, using(crate::proofs::KvnoLemmas::comes_after_last))]
fn comes_after(before: &[KeyBytes], kvno: u32) -> bool
    ensures value { result ≡ comes_after before.now kvno }
{
    match before {
        [] => true,
        [.., newer] => kvno < newer.kvno,
    }
}

#[tactic(auto, unfolding(crate::specs::Rows::key_row))]
fn read_key(
    alloc: Global,
    at: Location,
    before: &[KeyBytes],
    value: &Value,
) -> Result<KeyBytes, ConfigError>
    ensures value { UnlessMemory result (key_row at before.now (view value.now)) }
{
    let table = at.table_in(value)?;
    let kvno = at.number(table, "kvno", KVNOS)? as u32;
    if !comes_after(before, kvno) {
        return Err(ConfigError::Fault(at.fault(ConfigFaultKind::OutOfRange)));
    }
    let iterations = at.number(table, "iterations", ITERATION_COUNTS)?;
    let aes128 = at.hex_key(alloc, table, "aes128", AES128_LENGTH)?;
    let aes256 = at.hex_key(alloc, table, "aes256", AES256_LENGTH)?;
    let mut key = KeyBytes {
        kvno,
        iterations: iterations as u32,
        aes128: [0; AES128_LENGTH],
        aes256: [0; AES256_LENGTH],
    };
    key.aes128.copy_from_slice(aes128.as_slice());
    key.aes256.copy_from_slice(aes256.as_slice());
    Ok(key)
}

fn read_keys(alloc: Global, at: Location, list: &[Value]) -> Result<Vec<KeyBytes>, ConfigError>
    ensures value { UnlessMemory (result_map_both (λ keys. keys.items) (λ error. error) result)
        (walk (key_row at) [] (items_view list.now)) }
{
    let mut keys = Vec::with_capacity(alloc, list.len())?;
    for value in list {
        let key = read_key(alloc, at, keys.as_slice(), value)?;
        keys.push(key)?;
    }
    Ok(keys)
}

// A principal's name, which is none of those seen before.
fn read_new_name<'a>(
    alloc: Global,
    at: Location,
    seen: &mut BTreeSet<&'a str>,
    principal: &'a Table,
) -> Result<Name, ConfigError>
    ensures value { (names : List NameOf) → Knows seen.old names
        → UnlessMemory result (new_name at names (table_view principal.now)) }
    ensures knows { (names : List NameOf) → Knows seen.old names
        → IfOk result (λ name. Knows seen.new (names ++ name ∷ [])) }
{
    let named = at.name(alloc, principal, "name")?;
    if !add_name(seen, named.text)? {
        return Err(ConfigError::Fault(at.fault(ConfigFaultKind::Duplicate)));
    }
    Ok(named.name)
}

#[tactic(auto, unfolding(crate::specs::Rows::principal_row))]
fn read_principal<'a>(
    alloc: Global,
    seen: &mut BTreeSet<&'a str>,
    before: &[PrincipalRow],
    value: &'a Value,
) -> Result<PrincipalRow, ConfigError>
    requires { Knows seen.old (names_of before.now) }
    ensures value { UnlessMemory result (principal_row before.now (view value.now)) }
    ensures knows { IfOk result (λ row. Knows seen.new (names_of before.now ++ row.name ∷ [])) }
{
    let at = Location::of(Part::Principal, before.len());
    let keys_at = Location::of(Part::PrincipalKey, before.len());
    let table = at.table_in(value)?;
    let name = read_new_name(alloc, at, seen, table)?;
    let list = keys_at.list(table, "key", KEY_COUNTS)?;
    let keys = Items::of(read_keys(alloc, keys_at, list)?);
    Ok(PrincipalRow { name, keys })
}

fn read_principals(alloc: Global, list: &[Value]) -> Result<Vec<PrincipalRow>, ConfigError>
    ensures value { UnlessMemory (result_map_both (λ rows. rows.items) (λ error. error) result)
        (walk principal_row [] (items_view list.now)) }
{
    let mut seen = no_names(alloc);
    let mut rows = Vec::with_capacity(alloc, list.len())?;
    for value in list {
        let row = read_principal(alloc, &mut seen, rows.as_slice(), value)?;
        rows.push(row)?;
    }
    Ok(rows)
}

fn read_settings(alloc: Global, file: &Table) -> Result<Config, ConfigError>
    ensures value { UnlessMemory result (settings (table_view file.now)) }
{
    let service_at = Location::of(Part::Service, 0);
    let service_keys_at = Location::of(Part::ServiceKey, 0);
    let policy_at = Location::of(Part::Policy, 0);
    let rules_at = Location::of(Part::Rule, 0);
    let principals_at = Location::of(Part::Principal, 0);
    let service = service_at.table(file, "service")?;
    let realm = service_at.text(service, "realm", REALM_LENGTHS)?;
    let max_entries = service_at.number_or(service, "max_entries", ENTRY_COUNTS, DEFAULT_ENTRIES)?;
    let service_keys = service_keys_at.list(service, "key", SERVICE_KEY_COUNTS)?;
    let service_keys = read_service_keys(alloc, service_keys)?;
    let policy = read_policy(policy_at.table(file, "policy")?)?;
    let rules = rules_at.list_or_none(file, "rule", RULE_COUNTS)?;
    let rules = read_rules(alloc, rules)?;
    let principals = principals_at.list_or_none(file, "principal", PRINCIPAL_COUNTS)?;
    let principals = read_principals(alloc, principals)?;
    Ok(Config {
        realm: Items::of(Vec::from_slice(alloc, realm.as_bytes())?),
        max_entries: max_entries as u32,
        service: Items::of(service_keys),
        policy,
        rules: Rules {
            list: Items::of(rules),
        },
        principals: Items::of(principals),
    })
}

/// The configuration that the text of a file sets, or the first fault in it.
///
/// A text that `toml` refuses is `NotToml` of the file. Then the parts are read: the service, its keys, the policy, the
/// rules, the principals, each followed by its keys; within a table its keys in the order of docs/ADMIN.md. A key may
/// be missing, of the wrong kind, not hexadecimal, or out of range; these are checked in this order. `Memory` may come
/// anywhere.
pub fn read_config(alloc: Global, text: &str) -> Result<Config, ConfigError>
    ensures value { UnlessMemory result (settings_of text.now) }
    ensures fits { IfOk result (λ config. IsTrue (config_fits config)) }
    ensures keys { IfOk result (λ config. (1 ≤ length config.service)
        × (length config.service ≤ 16)) }
{
    match toml::table_from_str(alloc, text) {
        Ok(file) => read_settings(alloc, &file),
        Err(error) if error.is_memory() => Err(ConfigError::Memory),
        Err(_) => Err(ConfigError::Fault(ConfigFault::not_toml())),
    }
}
