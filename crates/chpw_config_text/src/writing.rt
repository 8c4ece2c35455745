//! The configuration's text.
ghost use Rattle.std.specs.Prelude.{◌≡◌, ◌≤◌, false, true, length, string_bytes, IfOk, IsTrue, OnOk};
ghost use Rattle.std.specs.List.{list_all};
ghost use Rattle.std.specs.Str.{is_utf8};
ghost use Rattle.toml.specs.Data.{table};
ghost use Rattle.toml.specs.Text.{IsDocumentText};
ghost use Rattle.toml.specs.View.{table_view, view};
ghost use Rattle.chpw_config.specs.Settings.{settings_of};
ghost use Rattle.chpw_rules.specs.Fitting.{config_fits};
ghost use Rattle.chpw_config_text.specs.Tables.{members_of, policy_table_of, service_of};
ghost use Rattle.chpw_config_text.specs.Typed.{is_typed, is_typed_service_key};
ghost use Rattle.chpw_config_text.specs.Writable.{JustWritable, is_writable};

use crate::fault::WriteFault;
use crate::fields::Fields;
use crate::names::text;
use crate::rows::list;
use chpw_rules::{Config, Policy};
use std::alloc::{AllocError, Global};
use toml::{Table, Value};

fn policy_table(alloc: Global, policy: &Policy) -> Result<Value, AllocError>
    ensures value { IfOk result (λ value. view value ≡ table (policy_table_of policy.now)) }
{
    let mut fields = Fields::new(alloc);
    fields.put("min_length", Value::from(policy.min_length))?;
    fields.put("min_classes", Value::from(policy.min_classes))?;
    fields.put("depth", Value::from(policy.depth))?;
    fields.put("iterations", Value::from(policy.iterations))?;
    fields.put("set_needs_initial", Value::from(policy.set_needs_initial))?;
    Ok(fields.into_value())
}

#[tactic(auto, using(crate::proofs::RowLemmas::all_pass))]
fn service_table(alloc: Global, config: &Config) -> Result<Value, WriteFault>
    ensures value { IfOk result (λ value. view value ≡ table (service_of config.now)) }
    ensures just { JustWritable result (is_utf8 config.now.realm) }
    ensures typed { OnOk result (list_all is_typed_service_key config.now.service ≡ true) }
{
    let realm = text(config.realm.as_slice())?;
    let mut fields = Fields::new(alloc);
    fields.put("realm", Value::string(alloc, realm)?)?;
    fields.put("max_entries", Value::from(config.max_entries))?;
    fields.put("key", list(alloc, config.service.as_slice())?)?;
    Ok(fields.into_value())
}

fn file_table(alloc: Global, config: &Config) -> Result<Table, WriteFault>
    ensures value { IfOk result (λ table. table_view table ≡ members_of config.now) }
    ensures just { JustWritable result (is_writable config.now) }
    ensures typed { OnOk result (is_typed config.now ≡ true) }
{
    let mut fields = Fields::new(alloc);
    fields.put("service", service_table(alloc, config)?)?;
    fields.put("policy", policy_table(alloc, &config.policy)?)?;
    fields.put("rule", list(alloc, config.rules.list.as_slice())?)?;
    fields.put("principal", list(alloc, config.principals.as_slice())?)?;
    Ok(fields.table)
}

/// Writes a configuration as the text of a file that sets it: keys in lower-case hexadecimal digits, names with `/`
/// between their components. The keys of a table are in alphabetical order.
///
/// A configuration that is out of its limits is written too, but its text can't be read. The realm is checked first,
/// then the rules, then the principals. `Memory` may come anywhere.
pub fn write_config(alloc: Global, config: &Config) -> Result<String, WriteFault>
    ensures reads { IfOk result (λ text. IsTrue (config_fits config.now)
        → 1 ≤ length config.now.service → settings_of (string_bytes text) ≡ Ok config.now) }
    ensures unwritable { JustWritable result (is_writable config.now) }
    ensures text { IfOk result (λ text.
        IsDocumentText false (members_of config.now) (string_bytes text)) }
{
    let file = file_table(alloc, config)?;
    match toml::table_to_string(alloc, &file) {
        Ok(text) => Ok(text),
        // The table has no dates, so only memory can be missing.
        Err(_) => Err(WriteFault::Memory),
    }
}
