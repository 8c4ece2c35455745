//! The rows of a configuration's lists.
ghost use Rattle.std.specs.Prelude.{Bool, ◌≡◌, true, IfOk, OnOk};
ghost use Rattle.std.specs.List.{list_all};
ghost use Rattle.toml.specs.Data.{Data};
ghost use Rattle.toml.specs.View.{view};
ghost use Rattle.chpw_config_text.specs.Tables.{key_of, list_of, principal_of, rule_of, service_key_of};
ghost use Rattle.chpw_config_text.specs.Typed.{is_typed_key, is_typed_principal, is_typed_service_key};
ghost use Rattle.chpw_config_text.specs.Writable.{JustWritable, is_writable_principal, is_writable_rule};

use crate::fault::WriteFault;
use crate::fields::{Fields, hexadecimal};
use crate::names::{name_text, target_text};
use chpw_rules::{KeyBytes, PrincipalRow, Rule, ServiceRow};
use std::alloc::Global;
use toml::Value;

pub trait Row {
    ghost form: { Self → Data };

    ghost is_writable: { Self → Bool };

    ghost is_typed: { Self → Bool };

    fn table(&self, alloc: Global) -> Result<Value, WriteFault>
        ensures value { IfOk result (λ table. view table ≡ form self.now) }
        ensures just { JustWritable result (is_writable self.now) }
        ensures typed { OnOk result (is_typed self.now ≡ true) };
}

/// A list of the rows' tables, in their order.
pub fn list<T: Row>(alloc: Global, rows: &[T]) -> Result<Value, WriteFault>
    ensures value { IfOk result (λ list. view list ≡ list_of T.form rows.now) }
    ensures just { JustWritable result (list_all T.is_writable rows.now) }
    ensures typed { OnOk result (list_all T.is_typed rows.now ≡ true) }
{
    let mut tables = Vec::with_capacity(alloc, rows.len())?;
    for row in rows {
        tables.push(row.table(alloc)?)?;
    }
    Ok(Value::from(tables))
}

impl Row for ServiceRow {
    ghost form = { service_key_of };

    ghost is_writable = { λ _. true };

    ghost is_typed = { is_typed_service_key };

    fn table(&self, alloc: Global) -> Result<Value, WriteFault> {
        let mut fields = Fields::new(alloc);
        fields.put("kvno", Value::from(self.kvno))?;
        fields.put("etype", Value::from(self.etype))?;
        fields.put("key", hexadecimal(alloc, self.key.as_slice())?)?;
        Ok(fields.into_value())
    }
}

impl Row for Rule {
    ghost form = { rule_of };

    ghost is_writable = { is_writable_rule };

    ghost is_typed = { λ _. true };

    fn table(&self, alloc: Global) -> Result<Value, WriteFault> {
        let actor = name_text(alloc, &self.actor)?;
        let target = target_text(alloc, &self.target)?;
        let mut fields = Fields::new(alloc);
        fields.put("actor", Value::from(actor))?;
        fields.put("target", Value::from(target))?;
        Ok(fields.into_value())
    }
}

impl Row for KeyBytes {
    ghost form = { key_of };

    ghost is_writable = { λ _. true };

    ghost is_typed = { is_typed_key };

    fn table(&self, alloc: Global) -> Result<Value, WriteFault> {
        let mut fields = Fields::new(alloc);
        fields.put("kvno", Value::from(self.kvno))?;
        fields.put("iterations", Value::from(self.iterations))?;
        fields.put("aes128", hexadecimal(alloc, &self.aes128)?)?;
        fields.put("aes256", hexadecimal(alloc, &self.aes256)?)?;
        Ok(fields.into_value())
    }
}

impl Row for PrincipalRow {
    ghost form = { principal_of };

    ghost is_writable = { is_writable_principal };

    ghost is_typed = { is_typed_principal };

    #[tactic(auto, using(crate::proofs::RowLemmas::all_pass))]
    fn table(&self, alloc: Global) -> Result<Value, WriteFault> {
        let name = name_text(alloc, &self.name)?;
        let keys = list(alloc, self.keys.as_slice())?;
        let mut fields = Fields::new(alloc);
        fields.put("name", Value::from(name))?;
        fields.put("key", keys)?;
        Ok(fields.into_value())
    }
}
