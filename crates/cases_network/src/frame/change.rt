//! What user-data asks for.

use chpw_frame::{ChangeData, ChangeFault, ChangeTarget, read_change_data};
use std::alloc::{AllocError, Global};
use support_cases::{Fault, bytes, hex_text, text_of};

/// The change that user-data asks for, or why it asks for none.
pub fn answer(alloc: Global, text: &str) -> Result<String, Fault> {
    let data = bytes(alloc, text)?;
    let shown = match read_change_data(alloc, &data) {
        Ok(change) => shown_change(alloc, &change),
        Err(ChangeFault::Memory) => Err(AllocError),
        Err(fault) => format!(in alloc; "{fault:?}"),
    };
    Ok(shown?)
}

fn shown_change(alloc: Global, change: &ChangeData) -> Result<String, AllocError> {
    let password = hex_text(alloc, change.password.as_slice())?;
    match &change.target {
        None => format!(in alloc; "password {password}"),
        Some(target) => {
            let target = shown_target(alloc, target)?;
            format!(in alloc; "password {password} of {target}")
        }
    }
}

fn shown_target(alloc: Global, target: &ChangeTarget) -> Result<String, AllocError> {
    let mut shown = format!(in alloc; "name-type {}", target.name.name_type)?;
    for component in target.name.name_string.as_slice() {
        write!(shown, " {}", text_of(component.as_slice()))?;
    }
    if let Some(realm) = &target.realm {
        write!(shown, " at {}", text_of(realm.as_slice()))?;
    }
    Ok(shown)
}
