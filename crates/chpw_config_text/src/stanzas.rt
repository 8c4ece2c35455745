//! Service keys and principals alone.
ghost use Rattle.std.specs.Prelude.{◌≡◌, false, true, string_bytes, IfOk, OnOk, Some};
ghost use Rattle.std.specs.List.{list_all};
ghost use Rattle.toml.specs.Data.{table};
ghost use Rattle.toml.specs.Parse.{parse_document};
ghost use Rattle.toml.specs.Text.{IsDocumentText};
ghost use Rattle.toml.specs.View.{table_view, view};
ghost use Rattle.chpw_config_text.specs.Stanzas.{keys_table, stanzas_of};
ghost use Rattle.chpw_config_text.specs.Typed.{is_typed_service_key};
ghost use Rattle.chpw_config_text.specs.Writable.{JustWritable, is_writable_principal};

use crate::fault::WriteFault;
use crate::fields::Fields;
use crate::rows::list;
use chpw_rules::{PrincipalRow, ServiceRow};
use std::alloc::Global;
use toml::{Table, Value};

// A table whose `key` is the list of these keys.
#[tactic(auto, using(crate::proofs::RowLemmas::all_pass))]
fn service_keys(alloc: Global, service: &[ServiceRow]) -> Result<Value, WriteFault>
    ensures value { IfOk result (λ value. view value ≡ table (keys_table service.now)) }
    ensures just { JustWritable result true }
    ensures typed { OnOk result (list_all is_typed_service_key service.now ≡ true) }
{
    let keys = list(alloc, service)?;
    let mut fields = Fields::new(alloc);
    fields.put("key", keys)?;
    Ok(fields.into_value())
}

fn stanza_table(
    alloc: Global,
    service: &[ServiceRow],
    principals: &[PrincipalRow],
) -> Result<Table, WriteFault>
    ensures value { IfOk result (λ table. table_view table ≡ stanzas_of service.now principals.now) }
    ensures just { JustWritable result (list_all is_writable_principal principals.now) }
{
    let mut fields = Fields::new(alloc);
    if !principals.is_empty() {
        fields.put("principal", list(alloc, principals)?)?;
    }
    if !service.is_empty() {
        fields.put("service", service_keys(alloc, service)?)?;
    }
    Ok(fields.table)
}

/// Writes service keys and principals as a configuration's file has them, `[[principal]]` and `[[service.key]]`, and
/// nothing else: after the other tables they complete a file. With none the text is empty.
///
/// Rows that are out of their limits are written too, but can't be read. `Memory` may come anywhere.
pub fn write_stanzas(
    alloc: Global,
    service: &[ServiceRow],
    principals: &[PrincipalRow],
) -> Result<String, WriteFault>
    ensures unwritable { JustWritable result (list_all is_writable_principal principals.now) }
    ensures text { IfOk result (λ text.
        IsDocumentText false (stanzas_of service.now principals.now) (string_bytes text)) }
    ensures reads { IfOk result (λ text.
        parse_document (string_bytes text) ≡ Some (stanzas_of service.now principals.now)) }
{
    let stanzas = stanza_table(alloc, service, principals)?;
    match toml::table_to_string(alloc, &stanzas) {
        Ok(text) => Ok(text),
        // The table has no dates, so only memory can be missing.
        Err(_) => Err(WriteFault::Memory),
    }
}
