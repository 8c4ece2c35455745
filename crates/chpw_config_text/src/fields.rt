//! The keys of a table and their values.
ghost use Rattle.std.specs.Prelude.{◌≡◌, IfOk, OnOk, true};
ghost use Rattle.toml.specs.Data.{no_members, table};
ghost use Rattle.toml.specs.View.{table_view, view};
ghost use Rattle.chpw_config_text.specs.Entries.{with_member};
ghost use Rattle.chpw_config_text.specs.Tables.{hexadecimal};
ghost use Rattle.chpw_config_text.specs.Typed.{are_bytes};

use std::alloc::{AllocError, Global};
use toml::{Table, Value};

/// A table that is filled key by key.
#[derive(Drop)]
pub struct Fields {
    pub alloc: Global,
    pub table: Table,
}

impl Fields {
    /// A table without keys.
    pub fn new(alloc: Global) -> Fields
        ensures value { table_view result.table ≡ no_members }
    {
        Fields {
            alloc,
            table: Table::new(alloc),
        }
    }

    #[tactic(auto, using(crate::proofs::EntryLemmas::members_put))]
    pub fn put(&mut self, key: &str, value: Value) -> Result<(), AllocError>
        ensures value { OnOk result (table_view self.new.table
            ≡ with_member key.now (view value) (table_view self.old.table)) }
    {
        let key = String::from_str(self.alloc, key)?;
        self.table.insert(key, value)?;
        Ok(())
    }

    pub fn into_value(self) -> Value
        ensures value { view result ≡ table (table_view self.table) }
    {
        let Fields { alloc: _, table } = self;
        Value::from(table)
    }
}

/// A key's bytes, as lower-case hexadecimal digits.
pub fn hexadecimal(alloc: Global, key: &[u8]) -> Result<Value, AllocError>
    ensures value { IfOk result (λ value. view value ≡ hexadecimal key.now) }
    ensures typed { are_bytes key.now ≡ true }
{
    Ok(Value::from(hex::encode(alloc, key)?))
}
