//! The settings that nothing reads.
ghost use Rattle.std.specs.Prelude.{◌≡◌, ◌++◌, IfOk, OnOk, option_map};
ghost use Rattle.toml.specs.Data.{get_member};
ghost use Rattle.toml.specs.View.{items_view, table_view, view};
ghost use Rattle.chpw_warnings.specs.Settings.{at, file_warnings, in_list, in_table, principal_warnings, principals_warnings, setting_warnings, unread};

use crate::tables::{elements, get, member};
use crate::warning::{Place, Warning};
use chpw_rules::Items;
use std::alloc::{AllocError, Global};
use toml::{Table, Value};

/// A list whose elements are tables.
#[derive(Clone, Copy, Drop)]
pub enum Listed {
    ServiceKeys,
    Rules,
    KeysOf { principal: usize },
}

impl Listed {
    // The place of the element of this number.
    fn at(self, number: usize) -> Place
        ensures value { result ≡ at self number }
    {
        match self {
            Listed::ServiceKeys => Place::ServiceKey(number),
            Listed::Rules => Place::Rule(number),
            Listed::KeysOf { principal } => Place::PrincipalKey {
                principal,
                key: number,
            },
        }
    }
}

/// A warning for each setting of a configuration's text that nothing reads: those of the file itself, `service`, its
/// keys, `policy`, the rules, the principals, each followed by its keys, and `kdc`; in a table in the order of their
/// names. A text that isn't TOML has none, nor has what is no table where one should be.
pub fn setting_warnings(alloc: Global, text: &str) -> Result<Vec<Warning>, AllocError>
    ensures value { IfOk result (λ warnings. warnings.items ≡ setting_warnings text.now) }
{
    match toml::table_from_str(alloc, text) {
        Ok(file) => file_warnings(alloc, &file),
        Err(error) if error.is_memory() => Err(AllocError),
        Err(_) => Ok(Vec::new(alloc)),
    }
}

fn file_warnings(alloc: Global, file: &Table) -> Result<Vec<Warning>, AllocError>
    ensures value { IfOk result (λ warnings. warnings.items ≡ file_warnings (table_view file.now)) }
{
    let service = get(file, "service");
    let keys = elements(member(service, "key"));
    let mut warnings = Vec::new(alloc);
    put_unread(&mut warnings, Place::File, file)?;
    put_table(&mut warnings, Place::Service, service)?;
    put_list(&mut warnings, Listed::ServiceKeys, keys)?;
    put_table(&mut warnings, Place::Policy, get(file, "policy"))?;
    put_list(&mut warnings, Listed::Rules, elements(get(file, "rule")))?;
    put_principals(&mut warnings, elements(get(file, "principal")))?;
    put_table(&mut warnings, Place::Kdc, get(file, "kdc"))?;
    Ok(warnings)
}

// The principals, each followed by its keys.
fn put_principals(warnings: &mut Vec<Warning>, principals: &[Value]) -> Result<(), AllocError>
    ensures value { OnOk result (warnings.new.items
        ≡ warnings.old.items ++ principals_warnings 1 (items_view principals.now)) }
{
    let mut others = principals;
    while let [principal, rest @ ..] = others {
        put_principal(warnings, principals.len() - rest.len(), principal)?;
        others = rest;
    }
    Ok(())
}

// The principal of this number, followed by its keys.
fn put_principal(
    warnings: &mut Vec<Warning>,
    number: usize,
    principal: &Value,
) -> Result<(), AllocError>
    ensures value { OnOk result (warnings.new.items
        ≡ warnings.old.items ++ principal_warnings number (view principal.now)) }
{
    let keys = elements(member(Some(principal), "key"));
    put_table(warnings, Place::Principal(number), Some(principal))?;
    put_list(warnings, Listed::KeysOf { principal: number }, keys)
}

// The elements of a list.
fn put_list(warnings: &mut Vec<Warning>, listed: Listed, list: &[Value]) -> Result<(), AllocError>
    ensures value { OnOk result (warnings.new.items
        ≡ warnings.old.items ++ in_list listed 1 (items_view list.now)) }
{
    let mut others = list;
    while let [value, rest @ ..] = others {
        let place = listed.at(list.len() - rest.len());
        put_table(warnings, place, Some(value))?;
        others = rest;
    }
    Ok(())
}

// A table, if it is one.
fn put_table(
    warnings: &mut Vec<Warning>,
    place: Place,
    table: Option<&Value>,
) -> Result<(), AllocError>
    ensures value { OnOk result (warnings.new.items
        ≡ warnings.old.items ++ in_table place (option_map (λ v. view v.now) table.entry)) }
{
    let Some(value) = table else {
        return Ok(());
    };
    match value.as_table() {
        None => Ok(()),
        Some(table) => put_unread(warnings, place, table),
    }
}

// The settings of a table that aren't read there.
fn put_unread(warnings: &mut Vec<Warning>, place: Place, table: &Table) -> Result<(), AllocError>
    ensures value { OnOk result (warnings.new.items
        ≡ warnings.old.items ++ unread place (table_view table.now)) }
{
    let alloc = *warnings.allocator();
    for (key, _) in table {
        if !place.reads(key.as_str()) {
            let key = Items::of(Vec::from_slice(alloc, key.as_bytes())?);
            warnings.push(Warning::Unread { place, key })?;
        }
    }
    Ok(())
}
