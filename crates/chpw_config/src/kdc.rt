//! Who of the KDC's principals is the service's, from the configuration's file.
ghost use Rattle.std.specs.Prelude.{◌≡◌, [], option_map, IfOk, List, ℕ, true};
ghost use Rattle.std.specs.Result.{result_map_both};
ghost use Rattle.toml.specs.Data.{get_member};
ghost use Rattle.toml.specs.View.{items_view, table_view, view};
ghost use Rattle.chpw_rules.specs.Patterns.{of_one_component, patterns_fit};
ghost use Rattle.chpw_config.specs.Faults.{UnlessMemory, placed};
ghost use Rattle.chpw_config.specs.Kdc.{a_pattern, kdc_of, kdc_settings, kdc_table, pattern_list, pattern_row};
ghost use Rattle.chpw_config.specs.Rows.{walk};

use crate::fault::{ConfigError, ConfigFault, ConfigFaultKind, Location, Part};
use crate::keys::get;
use chpw_rules::{Items, NamePattern, NamePatterns, PATTERN_COUNTS};
use std::alloc::Global;
use toml::{Table, Value};

impl Location {
    /// A pattern of names.
    pub fn pattern(self, alloc: Global, value: &Value) -> Result<NamePattern, ConfigError>
        ensures value { UnlessMemory result (placed self (a_pattern (view value.now))) }
    {
        let Some(text) = value.as_str() else {
            return Err(ConfigError::Fault(self.fault(ConfigFaultKind::WrongKind)));
        };
        match NamePattern::parse(alloc, text)? {
            Some(pattern) => Ok(pattern),
            None => Err(ConfigError::Fault(self.fault(ConfigFaultKind::OutOfRange))),
        }
    }
}

fn read_patterns(
    alloc: Global,
    part: Part,
    list: &[Value],
) -> Result<Items<NamePattern>, ConfigError>
    ensures value { UnlessMemory result (walk (pattern_row part) [] (items_view list.now)) }
{
    let mut patterns = Vec::with_capacity(alloc, list.len())?;
    for value in list {
        let pattern = Location::of(part, patterns.len()).pattern(alloc, value)?;
        patterns.push(pattern)?;
    }
    Ok(Items::of(patterns))
}

fn read_list(
    alloc: Global,
    part: Part,
    default: Items<NamePattern>,
    value: Option<&Value>,
) -> Result<Items<NamePattern>, ConfigError>
    ensures value { UnlessMemory result
        (pattern_list part default (option_map (λ v. view v.now) value.entry)) }
{
    let Some(value) = value else {
        return Ok(default);
    };
    let list = Location::of(part, 0).list_in(value, PATTERN_COUNTS)?;
    read_patterns(alloc, part, list)
}

fn read_table(alloc: Global, kdc: &Table) -> Result<NamePatterns, ConfigError>
    ensures value { UnlessMemory result (kdc_table (table_view kdc.now)) }
{
    let NamePatterns { include, exclude } = NamePatterns::of_one_component(alloc)?;
    Ok(NamePatterns {
        include: read_list(alloc, Part::KdcInclude, include, get(kdc, "include"))?,
        exclude: read_list(alloc, Part::KdcExclude, exclude, get(kdc, "exclude"))?,
    })
}

fn read_settings(alloc: Global, kdc: Option<&Value>) -> Result<NamePatterns, ConfigError>
    ensures value { UnlessMemory result (kdc_settings (option_map (λ v. view v.now) kdc.entry)) }
{
    let Some(value) = kdc else {
        return Ok(NamePatterns::of_one_component(alloc)?);
    };
    let table = Location::of(Part::Kdc, 0).table_in(value)?;
    read_table(alloc, table)
}

/// The patterns that the table `kdc` of a file's text sets, or the first fault in it; nothing else of the file is read.
///
/// A text that `toml` refuses is `NotToml` of the file. Then `include` is read, and then `exclude`: a list of at most 64
/// texts, each of 1 to 255 bytes. What is missing has no fault: without `include` each name of one component is
/// included, without `exclude` none is excluded. A fault of the list as a whole has the index 0. `Memory` may come
/// anywhere.
pub fn read_kdc(alloc: Global, text: &str) -> Result<NamePatterns, ConfigError>
    ensures value { UnlessMemory result (kdc_of text.now) }
    ensures fits { IfOk result (λ patterns.
        (patterns_fit patterns.include ≡ true) × (patterns_fit patterns.exclude ≡ true)) }
{
    match toml::table_from_str(alloc, text) {
        Ok(file) => read_settings(alloc, get(&file, "kdc")),
        Err(error) if error.is_memory() => Err(ConfigError::Memory),
        Err(_) => Err(ConfigError::Fault(ConfigFault::not_toml())),
    }
}
