//! What a key of the configuration may hold: a value at its place, or its fault there.
ghost use Rattle.std.specs.Prelude.{◌≡◌, ◌≤◌, IfOk, MatchResult};
ghost use Rattle.toml.specs.View.{items_view, table_view, view};
ghost use Rattle.chpw_config.specs.Faults.{placed};
ghost use Rattle.chpw_config.specs.Kinds.{a_flag, a_list, a_number, a_table, a_text};

use crate::fault::{ConfigFault, ConfigFaultKind, Location};
use chpw_rules::Limits;
use toml::{Table, Value};

impl Location {
    /// A whole number within the limits.
    pub fn number_in(self, value: &Value, limits: Limits) -> Result<usize, ConfigFault>
        ensures value { result ≡ placed self (a_number limits (view value.now)) }
        ensures high { IfOk result (λ number. number ≤ limits.high) }
    {
        let Some(number) = value.as_integer() else {
            return Err(self.fault(ConfigFaultKind::WrongKind));
        };
        match usize::try_from(number) {
            Ok(number) if limits.allow(number) => Ok(number),
            _ => Err(self.fault(ConfigFaultKind::OutOfRange)),
        }
    }

    /// True or false.
    pub fn flag_in(self, value: &Value) -> Result<bool, ConfigFault>
        ensures value { result ≡ placed self (a_flag (view value.now)) }
    {
        value
            .as_bool()
            .ok_or(self.fault(ConfigFaultKind::WrongKind))
    }

    /// A text whose number of bytes is within the limits.
    pub fn text_in<'a>(self, value: &'a Value, limits: Limits) -> Result<&'a str, ConfigFault>
        ensures value { MatchResult result
            (λ text. placed self (a_text limits (view value.now)) ≡ Ok text.now)
            (λ fault. placed self (a_text limits (view value.now)) ≡ Err fault) }
    {
        match value.as_str() {
            None => Err(self.fault(ConfigFaultKind::WrongKind)),
            Some(text) if limits.allow(text.len()) => Ok(text),
            Some(_) => Err(self.fault(ConfigFaultKind::OutOfRange)),
        }
    }

    pub fn table_in(self, value: &Value) -> Result<&Table, ConfigFault>
        ensures value { MatchResult result
            (λ table. placed self (a_table (view value.now)) ≡ Ok (table_view table.now))
            (λ fault. placed self (a_table (view value.now)) ≡ Err fault) }
    {
        value
            .as_table()
            .ok_or(self.fault(ConfigFaultKind::WrongKind))
    }

    /// A list whose number of elements is within the limits.
    #[tactic(auto, using(crate::proofs::KindLemmas::item_count_of_view))]
    pub fn list_in<'a>(self, value: &'a Value, limits: Limits) -> Result<&'a [Value], ConfigFault>
        ensures value { MatchResult result
            (λ list. placed self (a_list limits (view value.now)) ≡ Ok (items_view list.now))
            (λ fault. placed self (a_list limits (view value.now)) ≡ Err fault) }
    {
        match value.as_array() {
            None => Err(self.fault(ConfigFaultKind::WrongKind)),
            Some(list) if limits.allow(list.len()) => Ok(list.as_slice()),
            Some(_) => Err(self.fault(ConfigFaultKind::OutOfRange)),
        }
    }
}
