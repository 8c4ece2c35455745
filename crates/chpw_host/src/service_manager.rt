//! The service manager that started the service, which may wait until it listens (sd_notify(3)).

use crate::notification::notify;
use chpw_logging::{Log, Notice};
use std::env::{self, VarError};
use std::io::{self, ErrorKind};
use std::net::Net;
use std::rt::Env;
use std::sync::Wait;

/// The environment variable that names the manager's socket.
const SOCKET: &str = "NOTIFY_SOCKET";

/// Tells the manager that the service listens. If there is one that can't be told, that is reported on standard error.
pub fn notify_ready<R: Env + Net + Wait + Eprint + AllocGlobal>(rt: &R, log: &Log<'_, R>) {
    if tell_manager(rt, "READY=1").is_err() {
        log.tell(Notice::ManagerNotTold);
    }
}

/// Tells the manager that the service ends. If it can't be told, it sees that anyway.
pub fn notify_stopping<R: Env + Net + AllocGlobal>(rt: &R) {
    let _ = tell_manager(rt, "STOPPING=1");
}

// Sends a text to the manager, if there is one.
fn tell_manager<R: Env + Net + AllocGlobal>(rt: &R, text: &str) -> io::Result<()> {
    match env::var(rt, SOCKET) {
        Ok(socket) if socket.is_empty() => Ok(()),
        Ok(socket) => notify(rt, socket.as_str(), text),
        Err(VarError::NotPresent) => Ok(()),
        Err(_) => Err(io::Error::from(ErrorKind::InvalidInput)),
    }
}
