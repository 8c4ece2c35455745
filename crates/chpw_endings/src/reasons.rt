//! Why a file can't be read, or a port not be listened at, as far as that can be seen: a second line after the fault's.
ghost use Rattle.std.specs.Prelude.{◌≡◌, ◌≢◌, All, Contains, IfNone, IfSome, None, Some, if◌then◌else◌, nat_lt};
ghost use Rattle.std.specs.Net.Socket.{socket_port};
ghost use Rattle.chpw_endings.specs.Overlaps.{Takes};
ghost use Rattle.chpw_endings.specs.Reasons.{cause_of, is_privileged, named_by, of_type, of_unread};

use crate::ending::Ending;
use crate::new_password::STANDARD_INPUT;
use crate::overlaps::{Overlap, overlap_of};
use chpw_check::explain_check;
use chpw_import::KeysFault;
use chpw_invocation::{Invocation, ListenAddresses, command_of};
use chpw_start::{LONGEST_CONFIGURATION, ServeFault, read_configuration};
use std::alloc::Global;
use std::fmt;
use std::fs::{self, File, Files};
use std::io::ErrorKind;
use std::net::{IpAddr, Net, SocketAddr, TcpListener, TcpStream, UdpSocket};

/// How many bytes a seed has.
const SEED: u64 = 32;

/// The ports that require a privilege are below this one.
const FIRST_FREE: u16 = 1_024;

/// Why a fault came, displayed as a line after the fault's.
#[derive(Drop)]
pub enum Reason<'a> {
    /// The file doesn't exist, or its directory doesn't.
    Missing(&'a str),
    /// Its directory doesn't exist.
    NoFolder(&'a str),
    /// This process may not open it.
    Forbidden(&'a str),
    /// It is a directory.
    Folder(&'a str),
    /// It is a pipe, a socket or a device.
    Special(&'a str),
    /// It has too few bytes for a seed.
    Short(&'a str),
    /// It has too many bytes for a configuration.
    Long(&'a str),
    /// Another process has locked it.
    Held(&'a str),
    /// The configuration has this fault, in words.
    InWords(&'a str, String),
    /// Another socket has the port at this address.
    InUse(SocketAddr),
    /// The address is of no interface of this host.
    NoAddress(SocketAddr),
    /// The port is one of those that require a privilege.
    Privileged(u16),
    /// The first address is a wildcard that takes what comes to the second, too.
    Overlapping(IpAddr, IpAddr),
}

impl fmt::Display for Reason<'_> {
    ghost use Rattle.std.specs.Prelude.{Some};
    ghost use Rattle.chpw_endings.specs.Reasons.{line_of};

    ghost output = { λ reason. Some (line_of reason) };

    fn fmt<W: fmt::Write>(&self, f: &mut fmt::Formatter<W>) -> fmt::Result {
        match self {
            Reason::Missing(file) => write!(f, "{file}: no such file"),
            Reason::NoFolder(file) => write!(f, "{file}: no such directory"),
            Reason::Forbidden(file) => write!(f, "{file}: permission denied"),
            Reason::Folder(file) => write!(f, "{file}: is a directory"),
            Reason::Special(file) => write!(f, "{file}: not a regular file"),
            Reason::Short(file) => write!(f, "{file}: fewer than 32 bytes"),
            Reason::Long(file) => write!(f, "{file}: longer than 64 MiB"),
            Reason::Held(file) => write!(f, "{file}: in use by another process"),
            Reason::InWords(file, words) => write!(f, "{file}: {}", words.as_str()),
            Reason::InUse(place) => write!(f, "{place}: in use"),
            Reason::NoAddress(place) => write!(f, "{place}: no such address on this host"),
            Reason::Privileged(port) => {
                write!(f, "port {port}: ports below 1024 require a privilege")
            }
            Reason::Overlapping(wildcard, other) => write!(f, "{wildcard} overlaps {other}"),
        }
    }
}

/// The files and the port that the command line names, for faults about them.
#[derive(Clone, Copy, Default, Drop)]
struct Named<'a> {
    config: Option<&'a str>,
    seed: Option<&'a str>,
    // The file that the command locks, so that another process may hold it: the journal of `serve`.
    locked: Option<&'a str>,
    listen: Option<ListenAddresses>,
    port: u16,
}

impl<'a> Named<'a> {
    // What these words name.
    fn of(alloc: Global, words: &'a [String]) -> Named<'a> {
        match command_of(alloc, words) {
            Ok(invocation) => Named::by(&invocation),
            Err(_) => Named::default(),
        }
    }

    // What a command names.
    fn by(invocation: &Invocation<'a>) -> Named<'a>
        ensures value { result ≡ named_by invocation.now }
    {
        match invocation {
            Invocation::Serve(options) => Named {
                config: Some(options.config),
                seed: Some(options.seed),
                locked: Some(options.journal),
                listen: Some(options.listen),
                port: options.port,
            },
            Invocation::Client(options) => Named {
                config: Some(options.config),
                seed: Some(options.seed),
                ..Named::default()
            },
            Invocation::Table(options) => Named::by_config(options.config),
            Invocation::NewJournal(options) => Named::by_config(options.config),
            Invocation::Check { config } => Named::by_config(config),
            _ => Named::default(),
        }
    }

    // What a command names that reads a configuration, and nothing else that may be at fault.
    fn by_config(config: &'a str) -> Named<'a>
        ensures value { result ≡ record { config = Some config.entry; seed = None; locked = None; listen = None; port = 0 } }
    {
        Named {
            config: Some(config),
            ..Named::default()
        }
    }
}

// What is looked at for a reason.
#[derive(Drop)]
enum Cause<'a> {
    // This file couldn't be read.
    Unread(&'a str),
    // This file couldn't be made, or written to.
    Unwritten(&'a str),
    // The configuration in this file has a fault.
    BadConfig(&'a str),
    // These addresses couldn't be listened at, with this port.
    Unlistened(ListenAddresses, u16),
}

/// Why a run with these words ended so, if that can be seen.
pub fn reason_of<'a, R>(rt: &R, words: &'a [String], ending: &Ending<'a>) -> Option<Reason<'a>>
where
    R: Files<File = File> + Net<Listener = TcpListener, Stream = TcpStream> + AllocGlobal,
{
    let named = Named::of(rt.alloc(), words);
    match cause_of(ending, &named)? {
        Cause::Unread(file) => of_file(rt, file, &named),
        Cause::Unwritten(file) => unwritable(rt, file),
        Cause::BadConfig(file) => in_words(rt, file),
        Cause::Unlistened(listen, port) => of_places(rt, listen.as_slice(), port),
    }
}

// What to look at for the reason of such an ending, if it may have one.
fn cause_of<'a>(ending: &Ending<'a>, named: &Named<'a>) -> Option<Cause<'a>>
    ensures value { result ≡ cause_of ending.now named.now }
{
    match ending {
        Ending::Unread(file) => of_unread(file),
        Ending::Unbrought(KeysFault::CannotRead(file)) => Some(Cause::Unread(file)),
        Ending::Unserved(ServeFault::CannotRead(file)) => Some(Cause::Unread(file)),
        Ending::Unserved(ServeFault::CannotWrite(file)) => Some(Cause::Unwritten(file)),
        Ending::Unserved(ServeFault::Config(_)) => Some(Cause::BadConfig(named.config?)),
        Ending::Unserved(ServeFault::CannotListen) => {
            Some(Cause::Unlistened(named.listen?, named.port))
        }
        _ => None,
    }
}

// What to look at if the file of this name couldn't be read; standard input has no reason.
fn of_unread<'a>(file: &'a str) -> Option<Cause<'a>>
    ensures value { result ≡ of_unread file.entry }
{
    if file == STANDARD_INPUT {
        None
    } else {
        Some(Cause::Unread(file))
    }
}

// Why a file can't be made, or written to.
fn unwritable<'a, R: Files>(rt: &R, path: &'a str) -> Option<Reason<'a>> {
    match fs::metadata(rt, path) {
        Ok(metadata) => of_type(path, metadata.is_dir(), metadata.is_file()),
        Err(error) if error.kind() == ErrorKind::NotFound => {
            let (folder, _) = path.rsplit_once('/')?;
            match fs::metadata(rt, folder) {
                Ok(_) => None,
                Err(error) => of_folder(path, error.kind()),
            }
        }
        Err(error) => of_error(path, error.kind()),
    }
}

// Why a file can't be read.
fn of_file<'a, R: Files<File = File>>(
    rt: &R,
    path: &'a str,
    named: &Named<'a>,
) -> Option<Reason<'a>> {
    match fs::metadata(rt, path) {
        Err(error) => of_error(path, error.kind()),
        Ok(metadata) if metadata.is_file() => of_regular(rt, path, metadata.len(), named),
        Ok(metadata) => of_type(path, metadata.is_dir(), false),
    }
}

// Why a regular file with so many bytes can't be read.
fn of_regular<'a, R: Files<File = File>>(
    rt: &R,
    path: &'a str,
    length: u64,
    named: &Named<'a>,
) -> Option<Reason<'a>> {
    if named.seed == Some(path) && is_short(length) {
        Some(Reason::Short(path))
    } else if named.config == Some(path) && is_long(length) {
        Some(Reason::Long(path))
    } else {
        unopened(rt, path, named.locked == Some(path))
    }
}

// Why a file can't be opened, or not be locked if it is to be.
fn unopened<'a, R: Files<File = File>>(
    rt: &R,
    path: &'a str,
    is_locked: bool,
) -> Option<Reason<'a>> {
    match File::open(rt, path) {
        Ok(file) if is_locked && file.try_lock().is_err() => Some(Reason::Held(path)),
        Ok(_) => None,
        Err(error) => of_error(path, error.kind()),
    }
}

// Why what the path leads to is no file to read or write; none if it is one.
fn of_type<'a>(path: &'a str, is_folder: bool, is_file: bool) -> Option<Reason<'a>>
    ensures value { result ≡ of_type path.entry is_folder is_file }
{
    if is_folder {
        Some(Reason::Folder(path))
    } else if !is_file {
        Some(Reason::Special(path))
    } else {
        None
    }
}

// Whether a file with so many bytes is too short for a seed.
fn is_short(bytes: u64) -> bool
    ensures value { result ≡ nat_lt bytes 32 }
{
    bytes < SEED
}

// Whether a file with so many bytes is too long for a configuration.
fn is_long(bytes: u64) -> bool
    ensures value { result ≡ nat_lt LONGEST_CONFIGURATION bytes }
{
    bytes > LONGEST_CONFIGURATION as u64
}

// Why the path leads to nothing that can be opened, by the error's kind.
fn of_error(path: &str, kind: ErrorKind) -> Option<Reason<'_>>
    ensures missing { kind ≡ ErrorKind.NotFound → result ≡ Some (Reason.Missing path.entry) }
    ensures no_folder { kind ≡ ErrorKind.NotADirectory → result ≡ Some (Reason.Missing path.entry) }
    ensures forbidden { kind ≡ ErrorKind.PermissionDenied → result ≡ Some (Reason.Forbidden path.entry) }
    ensures none { kind ≢ ErrorKind.NotFound → kind ≢ ErrorKind.NotADirectory
        → kind ≢ ErrorKind.PermissionDenied → result ≡ None }
{
    match kind {
        ErrorKind::NotFound | ErrorKind::NotADirectory => Some(Reason::Missing(path)),
        ErrorKind::PermissionDenied => Some(Reason::Forbidden(path)),
        _ => None,
    }
}

// Why no file can be made at the path, by the kind of the error of its directory.
fn of_folder(path: &str, kind: ErrorKind) -> Option<Reason<'_>>
    ensures no_folder { kind ≡ ErrorKind.NotFound → result ≡ Some (Reason.NoFolder path.entry) }
    ensures missing { kind ≡ ErrorKind.NotADirectory → result ≡ Some (Reason.Missing path.entry) }
    ensures forbidden { kind ≡ ErrorKind.PermissionDenied → result ≡ Some (Reason.Forbidden path.entry) }
    ensures none { kind ≢ ErrorKind.NotFound → kind ≢ ErrorKind.NotADirectory
        → kind ≢ ErrorKind.PermissionDenied → result ≡ None }
{
    match kind {
        ErrorKind::NotFound => Some(Reason::NoFolder(path)),
        kind => of_error(path, kind),
    }
}

// What is wrong with a configuration, in the words of `check`.
fn in_words<'a, R: Files<File = File> + AllocGlobal>(rt: &R, path: &'a str) -> Option<Reason<'a>> {
    let text = read_configuration(rt, path).ok()?;
    let words = explain_check(rt.alloc(), &text).ok()??;
    Some(Reason::InWords(path, words))
}

// Why these addresses can't be listened at: the first that can't, or else two that can't be at once.
fn of_places<'a, R: Net<Listener = TcpListener, Stream = TcpStream>>(
    rt: &R,
    addresses: &[IpAddr],
    port: u16,
) -> Option<Reason<'a>> {
    let alone = addresses
        .iter()
        .find_map(|address| of_place(rt, SocketAddr::new(*address, port)));
    if alone.is_some() {
        return alone;
    }
    of_overlap(addresses)
}

// Why these addresses can't be listened at together.
fn of_overlap<'a>(addresses: &[IpAddr]) -> Option<Reason<'a>>
    ensures sound { IfSome result (λ reason. (a : IpAddr) × (b : IpAddr) × (reason ≡ Reason.Overlapping a b) × Takes a b
        × Contains addresses.now a × Contains addresses.now b) }
    ensures none { IfNone result (All (λ a. All (λ b. ¬ (Takes a b)) addresses.now) addresses.now) }
{
    match overlap_of(addresses) {
        Some(Overlap { wildcard, other }) => Some(Reason::Overlapping(wildcard, other)),
        None => None,
    }
}

// Why an address can't be listened at, over TCP or UDP.
fn of_place<'a, R: Net<Listener = TcpListener, Stream = TcpStream>>(
    rt: &R,
    place: SocketAddr,
) -> Option<Reason<'a>> {
    if let Err(error) = TcpListener::bind(rt, place) {
        return of_bind(place, error.kind());
    }
    match UdpSocket::bind(rt, place) {
        Ok(_) => None,
        Err(error) => of_bind(place, error.kind()),
    }
}

// The same, by the error's kind.
fn of_bind<'a>(place: SocketAddr, kind: ErrorKind) -> Option<Reason<'a>>
    ensures in_use { kind ≡ ErrorKind.AddrInUse → result ≡ Some (Reason.InUse place) }
    ensures elsewhere { kind ≡ ErrorKind.AddrNotAvailable → result ≡ Some (Reason.NoAddress place) }
    ensures forbidden { kind ≡ ErrorKind.PermissionDenied
        → result ≡ (if is_privileged (socket_port place) then Some (Reason.Privileged (socket_port place)) else None) }
    ensures none { kind ≢ ErrorKind.AddrInUse → kind ≢ ErrorKind.AddrNotAvailable → kind ≢ ErrorKind.PermissionDenied
        → result ≡ None }
{
    match kind {
        ErrorKind::AddrInUse => Some(Reason::InUse(place)),
        ErrorKind::AddrNotAvailable => Some(Reason::NoAddress(place)),
        ErrorKind::PermissionDenied if is_privileged(place.port()) => {
            Some(Reason::Privileged(place.port()))
        }
        _ => None,
    }
}

// Whether a port requires a privilege.
fn is_privileged(port: u16) -> bool
    ensures value { result ≡ is_privileged port }
{
    port < FIRST_FREE
}
