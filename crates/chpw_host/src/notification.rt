//! A notification to the service manager that started the process (sd_notify(3)): one datagram to its Unix socket. `std` has
//! no datagrams over Unix sockets, so the calls are those of `libc`, and `unsafe`; what they require is proved.
ghost use Rattle.std.specs.Prelude.{◌≡◌, ◌≢◌, ◌<ℤ◌, ◌≤ℤ◌, None, IfErr, IsErr, IsErrAnd, IsOk, IsSome, option_map, pos};
ghost use Rattle.std.specs.IoError.{error_kind, raw_os_error};
ghost use Rattle.chpw_host.specs.SocketAddresses as addresses;
ghost use Rattle.chpw_host.specs.Notifications as specs_of;

use crate::socket_address::{Address, address_of, put};
use libc::net as c;
use os::FromRawFd;
use std::io::{self, ErrorKind};
use std::net::Net;
use std::os::fd::{AsRawFd, OwnedFd};

/// The longest time, in seconds, for which the manager is waited for while its queue is full.
const PATIENCE: u64 = 5;

/// A text, and the address that it is sent to.
#[derive(Clone, Copy, Drop)]
struct Datagram<'a> {
    address: Address,
    text: &'a [u8],
}

/// Sends a text, such as `READY=1`, to the socket that the environment variable `NOTIFY_SOCKET` names: an absolute path, or
/// `@` and a name in Linux's abstract namespace. A name that is neither, or has more than 107 bytes, is an invalid input;
/// any other error is the system's.
pub(crate) fn notify<R: Net>(_rt: &R, socket: &str, text: &str) -> io::Result<()>
    ensures named { addresses.address_of socket.now ≡ None
        → IsErrAnd result (λ error. error_kind error ≡ ErrorKind.InvalidInput) }
    ensures failed { addresses.address_of socket.now ≢ None
        → IfErr result (λ error. IsSome (raw_os_error error)) }
{
    match datagram_of(socket, text) {
        None => Err(io::Error::from(ErrorKind::InvalidInput)),
        Some(datagram) => send(&datagram),
    }
}

// The text and the address of this name, if there is one.
fn datagram_of<'a>(name: &str, text: &'a str) -> Option<Datagram<'a>>
    ensures value { option_map specs_of.view result ≡ specs_of.datagram_of name.now text.entry.now }
{
    let address = address_of(name.as_bytes())?;
    let text = text.as_bytes();
    Some(Datagram { address, text })
}

// Sends it, unless the manager's queue stays full for as long as `PATIENCE`.
fn send(datagram: &Datagram<'_>) -> io::Result<()>
    ensures failed { IfErr result (λ error. IsSome (raw_os_error error)) }
{
    let fd = unsafe { c::socket(c::AF_UNIX, c::SOCK_DGRAM | c::SOCK_CLOEXEC, 0) };
    ended(fd as i64)?;
    let socket = unsafe { OwnedFd::from_raw_fd(fd) };
    let fd = socket.as_raw_fd();
    let timeout = unsafe { c::setsockopt(fd, c::SOL_SOCKET, c::SO_SNDTIMEO, &patience(), 16) };
    ended(timeout as i64)?;
    let Datagram { address, text } = datagram;
    let sent = unsafe { c::sendto(fd, text, c::MSG_NOSIGNAL, &address.raw, address.length) };
    ended(sent as i64)
}

// C's `timeval` of that time: the seconds, and no microseconds.
fn patience() -> [u8; 16]
    ensures value { result ≡ specs_of.timeval 5 }
{
    let mut value = [0; 16];
    put(&mut value, 0, &PATIENCE.to_ne_bytes());
    value
}

// What a call of the C library has returned: a negative number after an error, which `errno` has.
fn ended(returned: i64) -> io::Result<()>
    ensures good { pos 0 ≤ℤ returned → IsOk result }
    ensures bad { returned <ℤ pos 0 → IsErr result }
    ensures failed { IfErr result (λ error. IsSome (raw_os_error error)) }
{
    if returned < 0 {
        return Err(io::Error::from_raw_os_error(os::errno()));
    }
    Ok(())
}
