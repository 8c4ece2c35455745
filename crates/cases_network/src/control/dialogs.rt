//! Connections: what they give at each event, with a space between any two.

use crate::control::words::repeated_bytes;
use chpw_control::{Command, Dialog};
use std::alloc::{AllocError, Global};
use support_cases::Fault;

/// Bytes, `end` and `late`; for each `-` if it gives nothing.
pub fn dialog_text(alloc: Global, events: &[&str]) -> Result<String, Fault> {
    let mut dialog = Dialog::new(alloc);
    let mut text = String::new(alloc);
    for event in events {
        if !text.is_empty() {
            text.push_str(", ")?;
        }
        let told = event_text(alloc, &mut dialog, event)?;
        text.push_str(told.as_str())?;
    }
    Ok(text)
}

fn event_text(alloc: Global, dialog: &mut Dialog, event: &str) -> Result<String, Fault> {
    let told = match event {
        "end" => dialog.end().map(Err),
        "late" => dialog.expire().map(Err),
        piece => dialog.hear(alloc, &repeated_bytes(alloc, piece)?),
    };
    let text = match told {
        None => String::from_str(alloc, "-"),
        Some(Ok(command)) => command_text(alloc, &command),
        Some(Err(fault)) => format!(in alloc; "error: {}", fault.text()),
    };
    Ok(text?)
}

fn command_text(alloc: Global, command: &Command) -> Result<String, AllocError> {
    let word = match command {
        Command::Status => "Status",
        Command::Reload => "Reload",
        Command::ReopenLog => "ReopenLog",
        Command::Stop => "Stop",
        Command::Compact(file) => {
            let name = hex::encode(alloc, file.as_str().as_bytes())?;
            return format!(in alloc; "Compact {name}");
        }
    };
    String::from_str(alloc, word)
}
