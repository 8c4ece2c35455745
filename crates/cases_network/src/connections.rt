//! Cases of chpw_connections, a line each; what each does is printed. README.md lists their kinds.

mod cutting;
mod events;
pub mod script;
mod showing;
mod whole;

use crate::connections::script::Script;
use crate::words::parsed;
use std::alloc::Global;
use support_cases::{Fault, bytes};

/// The answer to a case. Most are about the script that the last `start` began.
pub fn answer(alloc: Global, script: &mut Option<Script>, case: &str) -> Result<String, Fault> {
    let (front, now) = case.split_once(" at ").unwrap_or((case, "0"));
    let (kind, words) = front.split_once(' ').unwrap_or((front, ""));
    match kind {
        "start" => {
            *script = Some(Script::of(alloc, words)?);
            Ok(String::from_str(alloc, "started")?)
        }
        "cut" => cutting::each(alloc, &bytes(alloc, words)?, false),
        "cut-off" => cutting::each(alloc, &bytes(alloc, words)?, true),
        _ => match script {
            Some(script) => script.answer(kind, words, parsed(now)?),
            None => Err(Fault::NoSuchCase),
        },
    }
}
