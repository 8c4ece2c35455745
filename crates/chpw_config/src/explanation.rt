//! What is wrong with a configuration, in words: the part by its place and its name, the key, and what it must be.
mod key;

use crate::fault::{ConfigFault, ConfigFaultKind, Part};
use chpw_rules::{
    KEY_COUNTS, Limits, PATTERN_COUNTS, PATTERN_LENGTHS, PRINCIPAL_COUNTS, RULE_COUNTS,
    SERVICE_KEY_COUNTS,
};
use key::{
    Holds, Key, POLICY, PRINCIPAL, PRINCIPAL_KEY, PRINCIPAL_KVNO, RULE, SERVICE, SERVICE_KEY,
    first_fault, kind_text, put_fault, put_length, put_range,
};
use std::alloc::{AllocError, Global};
use toml::{Table, Value};

/// The first fault of a configuration's text in words, such as `principal 3 "alice", key 2: iterations must be 1 to
/// 16777216`. Places are counted from 1.
///
/// For a text that isn't TOML it is the `toml` crate's message, with line and column.
pub fn explain(alloc: Global, text: &str, fault: ConfigFault) -> Result<String, AllocError> {
    match toml::table_from_str(alloc, text) {
        Ok(file) => explain_part(alloc, &file, fault),
        Err(error) if error.is_memory() => Err(AllocError),
        Err(error) => {
            let lines = error.to_string(alloc)?;
            lines.as_str().trim_end().replace(alloc, "\n", ": ")
        }
    }
}

// The keys of a list's elements, and how its faults are told.
#[derive(Clone, Copy, Drop)]
struct Elements<'a> {
    header: &'a str,
    counts: Limits,
    is_needed: bool,
    // What an element is called.
    word: &'a str,
    keys: &'a [Key],
    // What is told of an element whose keys are right: it repeats an earlier one.
    again: &'a str,
}

// What is wrong with a list as a whole.
#[derive(Clone, Copy, Drop)]
enum ListFault {
    IsMissing,
    IsNoList,
    Counts(Limits),
}

// What is wrong with a principal's key.
#[derive(Clone, Copy, Drop)]
enum KeyFault {
    Of(Key, ConfigFaultKind),
    // The version number isn't less than that of the key before.
    Order,
}

fn explain_part(alloc: Global, file: &Table, fault: ConfigFault) -> Result<String, AllocError> {
    let mut words = String::new(alloc);
    put_part(alloc, &mut words, file, fault)?;
    Ok(words)
}

fn put_part(
    alloc: Global,
    words: &mut String,
    file: &Table,
    fault: ConfigFault,
) -> Result<(), AllocError> {
    let index = fault.index;
    match fault.part {
        Part::File => words.push_str("the file is not TOML"),
        Part::Service => {
            words.push_str("[service]")?;
            put_table(alloc, words, file.get("service"), &SERVICE, "")
        }
        Part::Policy => {
            words.push_str("[policy]")?;
            put_table(alloc, words, file.get("policy"), &POLICY, "")
        }
        Part::ServiceKey => put_service_key(alloc, words, file, index),
        Part::Rule => put_rule(alloc, words, file, index),
        Part::Principal => put_principal(alloc, words, file, index),
        Part::PrincipalKey => put_keys(alloc, words, element(file.get("principal"), index), index),
        Part::Kdc => words.push_str("[kdc] must be a table"),
        Part::KdcInclude => put_patterns(words, file.get("kdc"), "include", index),
        Part::KdcExclude => put_patterns(words, file.get("kdc"), "exclude", index),
    }
}

fn put_service_key(
    alloc: Global,
    words: &mut String,
    file: &Table,
    index: usize,
) -> Result<(), AllocError> {
    let elements = Elements {
        header: "[[service.key]]",
        counts: SERVICE_KEY_COUNTS,
        is_needed: true,
        word: "service key",
        keys: &SERVICE_KEY,
        again: "an earlier service key has the same kvno and etype",
    };
    put_element(
        alloc,
        words,
        elements,
        member(file.get("service"), "key"),
        index,
    )
}

fn put_rule(
    alloc: Global,
    words: &mut String,
    file: &Table,
    index: usize,
) -> Result<(), AllocError> {
    let elements = Elements {
        header: "[[rule]]",
        counts: RULE_COUNTS,
        is_needed: false,
        word: "rule",
        keys: &RULE,
        again: "",
    };
    put_element(alloc, words, elements, file.get("rule"), index)
}

fn put_principal(
    alloc: Global,
    words: &mut String,
    file: &Table,
    index: usize,
) -> Result<(), AllocError> {
    let elements = Elements {
        header: "[[principal]]",
        counts: PRINCIPAL_COUNTS,
        is_needed: false,
        word: "principal",
        keys: &PRINCIPAL,
        again: "an earlier principal has the same name",
    };
    put_element(alloc, words, elements, file.get("principal"), index)
}

// The value at a key of a table.
fn member<'a>(table: Option<&'a Value>, name: &str) -> Option<&'a Value> {
    table?.as_table()?.get(name)
}

fn element(list: Option<&Value>, index: usize) -> Option<&Value> {
    list?.as_array()?.as_slice().get(index)
}

fn fault_of_list(list: Option<&Value>, counts: Limits, is_needed: bool) -> Option<ListFault> {
    let Some(value) = list else {
        return if is_needed {
            Some(ListFault::IsMissing)
        } else {
            None
        };
    };
    match value.as_array() {
        None => Some(ListFault::IsNoList),
        Some(elements) if counts.allow(elements.len()) => None,
        Some(_) => Some(ListFault::Counts(counts)),
    }
}

fn put_list_fault(words: &mut String, header: &str, fault: ListFault) -> Result<(), AllocError> {
    words.push_str(header)?;
    match fault {
        ListFault::IsMissing => words.push_str(" is missing"),
        ListFault::IsNoList => words.push_str(" must be a list of tables"),
        ListFault::Counts(counts) => {
            words.push_str(" must appear ")?;
            put_range(words, counts)?;
            words.push_str(" times")
        }
    }
}

// What is wrong with a list, or with its element at this index.
fn put_element(
    alloc: Global,
    words: &mut String,
    elements: Elements<'_>,
    list: Option<&Value>,
    index: usize,
) -> Result<(), AllocError> {
    if let Some(fault) = fault_of_list(list, elements.counts, elements.is_needed) {
        return put_list_fault(words, elements.header, fault);
    }
    let value = element(list, index);
    put_place(words, elements.word, value, index)?;
    put_table(alloc, words, value, elements.keys, elements.again)
}

// A word and the place from 1, with the name of the element there, if it has one.
fn put_place(
    words: &mut String,
    word: &str,
    value: Option<&Value>,
    index: usize,
) -> Result<(), AllocError> {
    let number = index.saturating_add(1);
    match member(value, "name") {
        Some(Value::String(name)) => {
            let name = name.as_str();
            write!(words, "{word} {number} {name:?}")
        }
        _ => write!(words, "{word} {number}"),
    }
}

// What is wrong with a table; if its keys are right, it repeats an earlier one (`again`).
fn put_table(
    alloc: Global,
    words: &mut String,
    value: Option<&Value>,
    keys: &[Key],
    again: &str,
) -> Result<(), AllocError> {
    let Some(value) = value else {
        return words.push_str(" is missing");
    };
    let Some(table) = value.as_table() else {
        return words.push_str(" must be a table");
    };
    words.push_str(": ")?;
    match first_fault(alloc, table, keys)? {
        Some((key, kind)) => put_fault(words, table, key, kind),
        None => words.push_str(again),
    }
}

// What is wrong with a principal's keys.
fn put_keys(
    alloc: Global,
    words: &mut String,
    principal: Option<&Value>,
    index: usize,
) -> Result<(), AllocError> {
    put_place(words, "principal", principal, index)?;
    let list = member(principal, "key");
    if let Some(fault) = fault_of_list(list, KEY_COUNTS, true) {
        words.push_str(": ")?;
        return put_list_fault(words, "[[principal.key]]", fault);
    }
    match list {
        Some(Value::Array(keys)) => put_first_key(alloc, words, keys.as_slice()),
        _ => Ok(()),
    }
}

// What is wrong with the first of these keys that has a fault.
fn put_first_key(alloc: Global, words: &mut String, keys: &[Value]) -> Result<(), AllocError> {
    let mut newer = None;
    for (number, key) in keys.iter().enumerate() {
        let number = number.saturating_add(1);
        let Some(table) = key.as_table() else {
            return write!(words, ", key {number} must be a table");
        };
        if let Some(fault) = fault_of_key(alloc, newer, table)? {
            write!(words, ", key {number}: ")?;
            return put_key_fault(words, table, fault);
        }
        newer = kvno_of(table);
    }
    words.push_str(": a key is wrong")
}

fn kvno_of(table: &Table) -> Option<i64> {
    table.get("kvno")?.as_integer()
}

// What is wrong with a principal's key that follows one of the version number `newer`.
fn fault_of_key(
    alloc: Global,
    newer: Option<i64>,
    table: &Table,
) -> Result<Option<KeyFault>, AllocError> {
    if let Some((key, kind)) = first_fault(alloc, table, &PRINCIPAL_KVNO)? {
        return Ok(Some(KeyFault::Of(key, kind)));
    }
    match (newer, kvno_of(table)) {
        (Some(newer), Some(kvno)) if kvno >= newer => return Ok(Some(KeyFault::Order)),
        _ => {}
    }
    match first_fault(alloc, table, &PRINCIPAL_KEY)? {
        Some((key, kind)) => Ok(Some(KeyFault::Of(key, kind))),
        None => Ok(None),
    }
}

fn put_key_fault(words: &mut String, table: &Table, fault: KeyFault) -> Result<(), AllocError> {
    match fault {
        KeyFault::Of(key, kind) => put_fault(words, table, key, kind),
        KeyFault::Order => words.push_str("kvno must be less than that of the key before it"),
    }
}

// What is wrong with a list of patterns, or with the one at this index.
fn put_patterns(
    words: &mut String,
    kdc: Option<&Value>,
    key: &str,
    index: usize,
) -> Result<(), AllocError> {
    write!(words, "[kdc] {key}")?;
    let list = member(kdc, key);
    let Some(Value::Array(patterns)) = list else {
        return words.push_str(" must be a list of texts");
    };
    if !PATTERN_COUNTS.allow(patterns.len()) {
        words.push_str(" must have ")?;
        put_range(words, PATTERN_COUNTS)?;
        return words.push_str(" patterns");
    }
    let number = index.saturating_add(1);
    write!(words, ", pattern {number} must be ")?;
    match element(list, index) {
        Some(Value::String(_)) => put_length(words, PATTERN_LENGTHS),
        _ => words.push_str(kind_text(Holds::Text(PATTERN_LENGTHS))),
    }
}
