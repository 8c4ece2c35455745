//! The service's control socket.
ghost use Rattle.std.specs.Prelude.{◌≡◌, ◌≢◌, true, false, IfErr, IfOk, IsSome, None, Ok};
ghost use Rattle.chpw_host.specs.Faults.{IsOfControl};

use chpw_start::ServeFault;
use mio::net::{UnixListener, UnixStream};
use std::fs::{self, Files, Permissions};
use std::io::{self, ErrorKind};
use std::net::Net;
use std::os::unix::fs::{FileTypeExt, PermissionsExt};

/// The mode of its file: only its owner can connect.
const MODE: u32 = 0o600;

/// How many may have connected before the file had its mode: more than a system lets wait.
const PENDING: u32 = 65_536;

/// A socket at a path, if one is asked for. One that a former run left there is replaced; if somebody listens there, or
/// another file is there, it is refused.
pub fn control_socket<'a, R: Files + Net>(
    rt: &R,
    path: Option<&'a str>,
) -> Result<Option<UnixListener>, ServeFault<'a>>
    ensures none { path.entry ≡ None → result ≡ Ok None }
    ensures asked { IsSome path.entry → IfOk result (λ socket. IsSome socket) }
    ensures fault { IfErr result (IsOfControl path.entry) }
{
    let Some(path) = path else {
        return Ok(None);
    };
    match bind(rt, path) {
        Ok(listener) => Ok(Some(listener)),
        Err(_) => Err(ServeFault::CannotListenAt(path)),
    }
}

// Drops whoever connected before the file had its mode.
fn bind<R: Files + Net>(rt: &R, path: &str) -> io::Result<UnixListener> {
    if is_left(rt, path) {
        fs::remove_file(rt, path)?;
    }
    let listener = UnixListener::bind(rt, path)?;
    fs::set_permissions(rt, path, Permissions::from_mode(MODE))?;
    for _ in 0..PENDING {
        if listener.accept().is_err() {
            break;
        }
    }
    Ok(listener)
}

// Whether a socket is there at which nobody listens.
fn is_left<R: Files + Net>(rt: &R, path: &str) -> bool {
    match fs::symlink_metadata(rt, path) {
        Ok(metadata) => metadata.file_type().is_socket() && is_refused(rt, path),
        Err(_) => false,
    }
}

fn is_refused<R: Net>(rt: &R, path: &str) -> bool {
    match UnixStream::connect(rt, path) {
        Ok(_) => false,
        Err(error) => is_nobody(error.kind()),
    }
}

// Whether a connection failed since nobody listens.
fn is_nobody(kind: ErrorKind) -> bool
    ensures nobody { kind ≡ ErrorKind.ConnectionRefused → result ≡ true }
    ensures other { kind ≢ ErrorKind.ConnectionRefused → result ≡ false }
{
    kind == ErrorKind::ConnectionRefused
}

/// Removes the socket's file, at the end.
pub fn take_away<R: Files>(rt: &R, path: Option<&str>) {
    if let Some(path) = path {
        let _ = fs::remove_file(rt, path);
    }
}
