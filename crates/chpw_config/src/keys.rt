//! The keys of a table of the configuration, each read at its place.
ghost use Rattle.std.specs.Prelude.{◌≡◌, ◌≤◌, IfOk, MatchResult, Some, option_map, vec_len};
ghost use Rattle.std.specs.Result.{result_map_both};
ghost use Rattle.toml.specs.Data.{get_member, no_items};
ghost use Rattle.toml.specs.View.{items_view, table_view, view};
ghost use Rattle.chpw_config.specs.Faults.{UnlessMemory, placed};
ghost use Rattle.chpw_rules.specs.Names.{name_of};
ghost use Rattle.chpw_config.specs.Kinds.{a_flag, a_hex_key, a_list, a_name, a_number, a_table, a_target, a_text, any_text, optional, present, required};

use crate::fault::{ConfigError, ConfigFault, ConfigFaultKind, Location};
use chpw_rules::{Limits, Name};
use hex::FromHexError;
use std::alloc::Global;
use toml::{Table, Value};

/// A name, and the text that spells it.
#[derive(Drop)]
pub struct SpelledName<'a> {
    pub name: Name,
    pub text: &'a str,
}

/// The value of a key, if it is present.
pub fn get<'a>(table: &'a Table, key: &str) -> Option<&'a Value>
    ensures value { option_map (λ v. view v.now) result
        ≡ get_member key.now (table_view table.now) }
{
    table.get(key)
}

impl Location {
    fn required_value<'a>(self, table: &'a Table, key: &str) -> Result<&'a Value, ConfigFault>
        ensures value { MatchResult result
            (λ value. present self key.now (table_view table.now) ≡ Ok (view value.now))
            (λ fault. present self key.now (table_view table.now) ≡ Err fault) }
    {
        match get(table, key) {
            None => Err(self.fault(ConfigFaultKind::MissingKey)),
            Some(value) => Ok(value),
        }
    }

    // A text of any length.
    fn any_text<'a>(self, table: &'a Table, key: &str) -> Result<&'a str, ConfigFault>
        ensures value { MatchResult result
            (λ text. required self key.now any_text (table_view table.now) ≡ Ok text.now)
            (λ fault. required self key.now any_text (table_view table.now) ≡ Err fault) }
    {
        let value = self.required_value(table, key)?;
        value.as_str().ok_or(self.fault(ConfigFaultKind::WrongKind))
    }

    /// A whole number within the limits.
    pub fn number(self, table: &Table, key: &str, limits: Limits) -> Result<usize, ConfigFault>
        ensures value { result ≡ required self key.now (a_number limits) (table_view table.now) }
        ensures high { IfOk result (λ number. number ≤ limits.high) }
    {
        self.number_in(self.required_value(table, key)?, limits)
    }

    /// True or false.
    pub fn flag(self, table: &Table, key: &str) -> Result<bool, ConfigFault>
        ensures value { result ≡ required self key.now a_flag (table_view table.now) }
    {
        self.flag_in(self.required_value(table, key)?)
    }

    pub fn table<'a>(self, table: &'a Table, key: &str) -> Result<&'a Table, ConfigFault>
        ensures value { MatchResult result
            (λ inner. required self key.now a_table (table_view table.now)
            ≡ Ok (table_view inner.now))
            (λ fault. required self key.now a_table (table_view table.now) ≡ Err fault) }
    {
        self.table_in(self.required_value(table, key)?)
    }

    /// A name, and the text that spells it.
    pub fn name<'a>(
        self,
        alloc: Global,
        table: &'a Table,
        key: &str,
    ) -> Result<SpelledName<'a>, ConfigError>
        ensures value { UnlessMemory (result_map_both (λ named. named.name) (λ error. error) result)
            (required self key.now a_name (table_view table.now)) }
        ensures text { IfOk result (λ named. name_of named.text.now ≡ Some named.name) }
    {
        let text = self.any_text(table, key)?;
        match Name::parse(alloc, text)? {
            Some(name) => Ok(SpelledName { name, text }),
            None => Err(ConfigError::Fault(self.fault(ConfigFaultKind::OutOfRange))),
        }
    }

    /// A name, or `*` for every name.
    pub fn target(
        self,
        alloc: Global,
        table: &Table,
        key: &str,
    ) -> Result<Option<Name>, ConfigError>
        ensures value { UnlessMemory result
            (required self key.now a_target (table_view table.now)) }
    {
        let text = self.any_text(table, key)?;
        if text == "*" {
            return Ok(None);
        }
        match Name::parse(alloc, text)? {
            Some(name) => Ok(Some(name)),
            None => Err(ConfigError::Fault(self.fault(ConfigFaultKind::OutOfRange))),
        }
    }

    /// A text whose number of bytes is within the limits.
    pub fn text<'a>(
        self,
        table: &'a Table,
        key: &str,
        lengths: Limits,
    ) -> Result<&'a str, ConfigFault>
        ensures value { MatchResult result
            (λ text. required self key.now (a_text lengths) (table_view table.now) ≡ Ok text.now)
            (λ fault. required self key.now (a_text lengths) (table_view table.now) ≡ Err fault) }
    {
        self.text_in(self.required_value(table, key)?, lengths)
    }

    /// The bytes of a key of this length.
    pub fn hex_key(
        self,
        alloc: Global,
        table: &Table,
        key: &str,
        size: usize,
    ) -> Result<Vec<u8>, ConfigError>
        ensures value { UnlessMemory (result_map_both (λ key. key.items) (λ error. error) result)
            (required self key.now (a_hex_key size) (table_view table.now)) }
        ensures size { IfOk result (λ key. vec_len key ≡ size) }
    {
        let text = self.any_text(table, key)?;
        match hex::decode(alloc, text) {
            Ok(key) if key.len() == size => Ok(key),
            Ok(_) => Err(ConfigError::Fault(self.fault(ConfigFaultKind::OutOfRange))),
            Err(FromHexError::OutOfMemory) => Err(ConfigError::Memory),
            Err(_) => Err(ConfigError::Fault(self.fault(ConfigFaultKind::BadHex))),
        }
    }

    /// A list whose number of elements is within the limits.
    pub fn list<'a>(
        self,
        table: &'a Table,
        key: &str,
        counts: Limits,
    ) -> Result<&'a [Value], ConfigFault>
        ensures value { MatchResult result
            (λ list. required self key.now (a_list counts) (table_view table.now)
            ≡ Ok (items_view list.now))
            (λ fault. required self key.now (a_list counts) (table_view table.now) ≡ Err fault) }
    {
        self.list_in(self.required_value(table, key)?, counts)
    }

    /// A whole number within the limits, or the default if the key is missing.
    pub fn number_or(
        self,
        table: &Table,
        key: &str,
        limits: Limits,
        default: usize,
    ) -> Result<usize, ConfigFault>
        ensures value { result
            ≡ optional self key.now (a_number limits) default (table_view table.now) }
        ensures high { default ≤ limits.high → IfOk result (λ number. number ≤ limits.high) }
    {
        match get(table, key) {
            None => Ok(default),
            Some(value) => self.number_in(value, limits),
        }
    }

    /// A list whose number of elements is within the limits, or an empty one if the key is missing.
    pub fn list_or_none<'a>(
        self,
        table: &'a Table,
        key: &str,
        counts: Limits,
    ) -> Result<&'a [Value], ConfigFault>
        ensures value { MatchResult result
            (λ list. optional self key.now (a_list counts) no_items (table_view table.now)
            ≡ Ok (items_view list.now))
            (λ fault. optional self key.now (a_list counts) no_items (table_view table.now)
            ≡ Err fault) }
    {
        match get(table, key) {
            None => Ok(&[]),
            Some(value) => self.list_in(value, counts),
        }
    }
}
