//! What a user asks the program for.
ghost use Rattle.std.specs.Prelude.{◌≡◌, ◌≤◌, ℕ, Some, true, None, length};
ghost use Rattle.chpw_invocation.specs.Sharing.{default_per_peer};

use crate::listening::ListenAddresses;
use chpw_control::Command;

/// The greatest `--port`.
pub const GREATEST_PORT: u16 = 65_535;

/// The greatest `--workers`.
pub const MOST_WORKERS: u8 = 16;

/// The greatest `--idle`, in seconds: an hour.
pub const LONGEST_IDLE: u16 = 3600;

/// The default of `--idle`: the seconds of waiting for its client after which a connection is ended.
pub const DEFAULT_IDLE: u16 = 30;

/// The greatest `--clients`.
pub const MOST_CLIENTS: u32 = 65_536;

/// The default of `--clients`: how many connections may be open at a time.
pub const DEFAULT_CLIENTS: u32 = 1_024;

/// The greatest `--clients-per-peer`.
pub const MOST_CLIENTS_PER_PEER: u32 = 65_536;

/// The default of `--clients-per-peer`: a quarter of `--clients`, and at least 1.
pub fn default_clients_per_peer(clients: u32) -> u32
    ensures value { result ≡ default_per_peer clients }
{
    if clients < 4 { 1 } else { clients / 4 }
}

/// The greatest `--buffers`, in MiB.
pub const MOST_BUFFERS: u16 = 1_024;

/// The default of `--buffers`: the MiB that the messages and replies of all connections may hold together.
pub const DEFAULT_BUFFERS: u16 = 32;

/// The greatest `--kdc-wait`, in milliseconds: a minute.
pub const LONGEST_KDC_WAIT: u32 = 60_000;

/// The default of `--kdc-wait`: the milliseconds that the reply to a change waits for the KDC.
pub const DEFAULT_KDC_WAIT: u32 = 2_000;

/// The greatest iteration count.
pub const GREATEST_COUNT: u32 = 16_777_216;

/// The default iteration count of keys (RFC 3962 section 4).
pub const DEFAULT_COUNT: u32 = 4096;

/// The greatest key version.
pub const GREATEST_KVNO: u32 = 4_294_967_295;

/// The default key version.
pub const DEFAULT_KVNO: u32 = 1;

/// The most bytes in a realm.
pub const LONGEST_REALM: usize = 255;

/// Where the new password comes from.
#[derive(Clone, Copy, Drop)]
pub enum PasswordSource<'a> {
    /// This text.
    Text(&'a str),
    /// This file.
    File(&'a str),
    /// Standard input.
    StandardInput,
}

/// What `client` sends, and where.
#[derive(Clone, Copy, Drop)]
pub struct ClientOptions<'a> {
    /// The configuration's file.
    pub config: &'a str,
    /// The file with the seed.
    pub seed: &'a str,
    /// 1 to 65535.
    pub port: u16,
    /// Who asks.
    pub client: &'a str,
    /// The new password.
    pub password: PasswordSource<'a>,
    /// The principal whose password is set, if that isn't the client.
    pub target: Option<&'a str>,
    /// Whether the ticket is made without the flag INITIAL.
    pub no_initial: bool,
    /// Whether it asks in the earlier protocol, which has no target.
    pub old: bool,
    ghost own: { old ≡ true → target ≡ None },
}

/// After how many connections the service ends.
#[derive(Clone, Copy, Debug, Drop)]
pub enum ConnectionLimit {
    /// However many there are, it goes on.
    Unlimited,
    /// After this many, 1 to 4,294,967,295.
    Of(u32),
}

/// What `serve` starts from, where it listens, and how it works.
#[derive(Clone, Copy, Drop)]
pub struct ServeOptions<'a> {
    /// The configuration's file.
    pub config: &'a str,
    /// The journal's file.
    pub journal: &'a str,
    /// The file with the seed.
    pub seed: &'a str,
    /// 1 to 65535.
    pub port: u16,
    /// The addresses at which it listens; default [`DEFAULT_ADDRESS`](crate::DEFAULT_ADDRESS).
    pub listen: ListenAddresses,
    /// 1 to 16.
    pub workers: u8,
    /// After how many connections it ends.
    pub connections: ConnectionLimit,
    /// After how many seconds of waiting for its client a connection is ended, 1 to [`LONGEST_IDLE`]; default
    /// [`DEFAULT_IDLE`].
    pub idle: u16,
    /// How many connections may be open at a time, 1 to 65,536; default [`DEFAULT_CLIENTS`].
    pub clients: u32,
    /// How many of them one peer may have at a time, 1 to 65,536; default [`default_clients_per_peer`] of `clients`.
    pub clients_per_peer: u32,
    /// How many MiB the messages and replies of all connections may hold together, 1 to 1,024; default
    /// [`DEFAULT_BUFFERS`].
    pub buffers: u16,
    /// The iteration count that new keys are raised to before the service listens, 1 to 16,777,216; none to leave it.
    pub raise: Option<u32>,
    /// The file of the log, if there is one.
    pub log: Option<&'a str>,
    /// The file that a clean end leaves for the next start, if there is one.
    pub resume: Option<&'a str>,
    /// The socket of the agent at the KDC's database; without one keys go nowhere else, and no reply waits.
    pub kdc: Option<&'a str>,
    /// How many milliseconds the reply to a change waits for the KDC, 1 to [`LONGEST_KDC_WAIT`]; default
    /// [`DEFAULT_KDC_WAIT`].
    pub kdc_wait: u32,
    /// Whether requests are decided only while the KDC gets each change within that time.
    pub require_kdc: bool,
    /// The path of the control socket, if there is one.
    pub control: Option<&'a str>,
    /// Whether messages are accepted over UDP too.
    pub udp: bool,
    /// Whether requests of RFC 3244 alone are answered, and those of the earlier protocol refused.
    pub rfc3244_only: bool,
    /// Whether a KRB-PRIV is refused that RFC 4120 section 3.5.2 would have refused.
    pub strict_messages: bool,
    /// Whether a start is refused when others may read or write one of its files.
    pub strict_modes: bool,
    /// Whether a start is refused when there is no journal.
    pub existing_journal: bool,
    ghost some_workers: { (1 ≤ workers) × (workers ≤ 16) },
    ghost some_idle: { (1 ≤ idle) × (idle ≤ 3600) },
    ghost some_clients: { (1 ≤ clients) × (clients ≤ 65536) },
    ghost some_clients_per_peer: { (1 ≤ clients_per_peer) × (clients_per_peer ≤ 65536) },
    ghost some_buffers: { (1 ≤ buffers) × (buffers ≤ 1024) },
    ghost some_kdc_wait: { (1 ≤ kdc_wait) × (kdc_wait ≤ 60000) },
    ghost some_count: { (count : ℕ) → raise ≡ Some count → (1 ≤ count) × (count ≤ 16777216) },
}

/// The numbers of a service: how much it does at a time, and how long it waits.
#[derive(Clone, Copy, Drop)]
pub(crate) struct Bounds {
    pub workers: u8,
    pub connections: ConnectionLimit,
    pub idle: u16,
    pub clients: u32,
    pub clients_per_peer: u32,
    pub buffers: u16,
    pub raise: Option<u32>,
    pub kdc_wait: u32,
    ghost some_workers: { (1 ≤ workers) × (workers ≤ 16) },
    ghost some_idle: { (1 ≤ idle) × (idle ≤ 3600) },
    ghost some_clients: { (1 ≤ clients) × (clients ≤ 65536) },
    ghost some_clients_per_peer: { (1 ≤ clients_per_peer) × (clients_per_peer ≤ 65536) },
    ghost some_buffers: { (1 ≤ buffers) × (buffers ≤ 1024) },
    ghost some_kdc_wait: { (1 ≤ kdc_wait) × (kdc_wait ≤ 60000) },
    ghost some_count: { (count : ℕ) → raise ≡ Some count → (1 ≤ count) × (count ≤ 16777216) },
}

/// A command for a running service, and where to send it.
#[derive(Clone, Copy, Drop)]
pub struct ControlOptions<'a> {
    /// The service's control socket.
    pub socket: &'a str,
    /// The command.
    pub command: Command<&'a str>,
}

/// The output forms of `table`.
#[derive(Clone, Copy, Debug, Drop)]
pub enum TableForm {
    /// A line for each principal.
    Lines,
    /// A whole configuration.
    Configuration,
    /// A line for each key, for a KDC's tools.
    Keys,
}

/// Which table is printed, and in which form.
#[derive(Clone, Copy, Drop)]
pub struct TableOptions<'a> {
    /// The configuration's file.
    pub config: &'a str,
    /// The journal's file.
    pub journal: &'a str,
    /// Lines by default.
    pub form: TableForm,
}

/// Which journal is made, and for which realm.
#[derive(Clone, Copy, Drop)]
pub struct NewJournalOptions<'a> {
    /// The configuration's file, which has the realm.
    pub config: &'a str,
    /// The file that is made.
    pub journal: &'a str,
    /// The file that is made beside it for the first start, if there is one.
    pub resume: Option<&'a str>,
}

/// The keytab that is imported.
#[derive(Clone, Copy, Drop)]
pub struct ImportOptions<'a> {
    /// The keytab's file.
    pub keytab: &'a str,
    /// 1 to [`LONGEST_REALM`] bytes.
    pub realm: &'a str,
    /// The iteration count that the principals' keys were made with, 1 to 16,777,216; default [`DEFAULT_COUNT`].
    pub iterations: u32,
    ghost some_realm: { (1 ≤ length realm.now) × (length realm.now ≤ 255) },
    ghost some_count: { (1 ≤ iterations) × (iterations ≤ 16777216) },
}

/// The KDC whose principals are imported.
#[derive(Clone, Copy, Drop)]
pub struct KdcOptions<'a> {
    /// The socket of the agent at the KDC's database.
    pub socket: &'a str,
    /// The configuration's file whose table `kdc` says who is the service's, if there is one.
    pub config: Option<&'a str>,
    /// The iteration count that the KDC makes keys with, 1 to 16,777,216; default [`DEFAULT_COUNT`].
    pub iterations: u32,
    ghost some_count: { (1 ≤ iterations) × (iterations ≤ 16777216) },
}

/// The principal whose keys are made from a password.
#[derive(Clone, Copy, Drop)]
pub struct KeyOptions<'a> {
    /// 1 to [`LONGEST_REALM`] bytes.
    pub realm: &'a str,
    /// The principal.
    pub name: &'a str,
    /// The password's file.
    pub password_file: &'a str,
    /// 1 to 16,777,216; default [`DEFAULT_COUNT`].
    pub iterations: u32,
    /// 1 to 4,294,967,295; default 1.
    pub kvno: u32,
    ghost some_realm: { (1 ≤ length realm.now) × (length realm.now ≤ 255) },
    ghost some_count: { (1 ≤ iterations) × (iterations ≤ 16777216) },
    ghost some_kvno: { 1 ≤ kvno },
}

/// A command with its options.
#[derive(Clone, Copy, Drop)]
pub enum Invocation<'a> {
    /// Run the script on standard input.
    Drill,
    /// Check the configuration in a file.
    Check { config: &'a str },
    /// Print the table that configuration and journal hold.
    Table(TableOptions<'a>),
    /// Convert the keys of a keytab.
    Import(ImportOptions<'a>),
    /// Convert the keys that a KDC has.
    ImportKdc(KdcOptions<'a>),
    /// Make the keys of a password.
    Key(KeyOptions<'a>),
    /// Make a journal.
    NewJournal(NewJournalOptions<'a>),
    /// Run the service.
    Serve(ServeOptions<'a>),
    /// Send a command to a running service.
    Control(ControlOptions<'a>),
    /// Send one request.
    Client(ClientOptions<'a>),
}
