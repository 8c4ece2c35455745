//! The sockets at the service's addresses.
ghost use Rattle.std.specs.Prelude.{◌≡◌, IfErr, IfOk, IfSome, IsSome, None, Ok, false, length, true};
ghost use Rattle.chpw_invocation.specs.Listening.{listened};
ghost use Rattle.chpw_start.specs.Faults.{IsLate};

use chpw_invocation::ServeOptions;
use chpw_sockets::DatagramSockets;
use chpw_start::ServeFault;
use std::net::{Net, TcpListener, TcpStream, UdpSocket};

/// The sockets at the service's addresses: a listener for each, and with datagrams a socket for each.
#[derive(Drop)]
pub struct BoundSockets {
    pub listeners: Vec<TcpListener>,
    pub datagrams: Option<DatagramSockets>,
}

/// Binds the sockets at the service's addresses, in their order; over UDP tickets of this realm are answered. `CannotListen` if
/// one can't be had, and then none is kept.
pub fn bind<'a, R: Net<Listener = TcpListener, Stream = TcpStream> + AllocGlobal>(
    rt: &R,
    options: &ServeOptions<'_>,
    realm: &[u8],
) -> Result<BoundSockets, ServeFault<'a>>
    ensures each { IfOk result (λ sockets. length sockets.listeners.items ≡ length (listened options.now.listen)) }
    ensures none { options.now.udp ≡ false → IfOk result (λ sockets. sockets.datagrams ≡ None) }
    ensures asked { options.now.udp ≡ true → IfOk result (λ sockets. IsSome sockets.datagrams) }
    ensures each_datagram { IfOk result (λ sockets. IfSome sockets.datagrams (λ d. length d.sockets.items ≡ length (listened options.now.listen))) }
    ensures realm { IfOk result (λ sockets. IfSome sockets.datagrams (λ s. s.realm.items ≡ realm.now)) }
    ensures port { IfOk result (λ sockets. IfSome sockets.datagrams (λ s. s.port ≡ options.now.port)) }
    ensures fault { IfErr result IsLate }
{
    Ok(BoundSockets {
        listeners: listeners_of(rt, options)?,
        datagrams: datagrams_of(rt, options, realm)?,
    })
}

// A listener for each address.
fn listeners_of<'a, R: Net<Listener = TcpListener, Stream = TcpStream> + AllocGlobal>(
    rt: &R,
    options: &ServeOptions<'_>,
) -> Result<Vec<TcpListener>, ServeFault<'a>>
    ensures each { IfOk result (λ v. length v.items ≡ length (listened options.now.listen)) }
    ensures fault { IfErr result IsLate }
{
    let mut listeners = Vec::new(rt.alloc());
    for address in options.listen.as_slice() {
        let listener = match TcpListener::bind(rt, (*address, options.port)) {
            Ok(listener) => listener,
            Err(_) => return Err(ServeFault::CannotListen),
        };
        if listeners.push(listener).is_err() {
            return Err(ServeFault::Memory);
        }
    }
    Ok(listeners)
}

// A socket for datagrams at each address, if they are asked for, where tickets of this realm are answered.
fn datagrams_of<'a, R: Net + AllocGlobal>(
    rt: &R,
    options: &ServeOptions<'_>,
    realm: &[u8],
) -> Result<Option<DatagramSockets>, ServeFault<'a>>
    ensures none { options.now.udp ≡ false → result ≡ Ok None }
    ensures asked { options.now.udp ≡ true → IfOk result (λ sockets. IsSome sockets) }
    ensures each { IfOk result (λ sockets. IfSome sockets (λ s. length s.sockets.items ≡ length (listened options.now.listen))) }
    ensures realm { IfOk result (λ sockets. IfSome sockets (λ s. s.realm.items ≡ realm.now)) }
    ensures port { IfOk result (λ sockets. IfSome sockets (λ s. s.port ≡ options.now.port)) }
    ensures fault { IfErr result IsLate }
{
    if !options.udp {
        return Ok(None);
    }
    let Ok(realm) = Vec::from_slice(rt.alloc(), realm) else {
        return Err(ServeFault::Memory);
    };
    Ok(Some(DatagramSockets {
        sockets: sockets_of(rt, options)?,
        port: options.port,
        realm,
    }))
}

// A socket for datagrams at each address.
fn sockets_of<'a, R: Net + AllocGlobal>(
    rt: &R,
    options: &ServeOptions<'_>,
) -> Result<Vec<UdpSocket>, ServeFault<'a>>
    ensures each { IfOk result (λ v. length v.items ≡ length (listened options.now.listen)) }
    ensures fault { IfErr result IsLate }
{
    let mut sockets = Vec::new(rt.alloc());
    for address in options.listen.as_slice() {
        let socket = match UdpSocket::bind(rt, (*address, options.port)) {
            Ok(socket) => socket,
            Err(_) => return Err(ServeFault::CannotListen),
        };
        if sockets.push(socket).is_err() {
            return Err(ServeFault::Memory);
        }
    }
    Ok(sockets)
}
