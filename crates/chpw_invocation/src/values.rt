//! The values of the options that the words of the command line give.
ghost use Rattle.std.specs.Prelude.{◌≡◌, ◌≢◌, ◌≤◌, ◌⊎◌, ℕ, None, IfSome, codes, option_map};
ghost use Rattle.clap.specs.Words.{first_of, found_of, rows_of};
ghost use Rattle.clap.specs.Simple.{filled};
ghost use Rattle.chpw_invocation.specs.Needs.{Suits};
ghost use Rattle.chpw_invocation.specs.Options as options_of;
ghost use Rattle.chpw_invocation.specs.Options.{may_be_numbered};
ghost use Rattle.chpw_invocation.specs.Invocations.{HasNumber, HasNumberOr};
ghost use Rattle.chpw_invocation.specs.Invocations.{HasTakenNumber};
ghost use Rattle.chpw_invocation.specs.Invocations.{IsGiven};
ghost use Rattle.chpw_invocation.specs.Invocations.{HasLimit, IsLimit, LacksGiven, LacksLimit, LacksNumber};
ghost use Rattle.chpw_invocation.specs.Invocations.{MayHaveNumber, given};
ghost use Rattle.chpw_invocation.specs.Sharing.{default_per_peer};

use crate::invocation::{
    ConnectionLimit, DEFAULT_BUFFERS, DEFAULT_CLIENTS, DEFAULT_COUNT, DEFAULT_IDLE,
    DEFAULT_KDC_WAIT, DEFAULT_KVNO, GREATEST_COUNT, GREATEST_KVNO, GREATEST_PORT, LONGEST_IDLE,
    LONGEST_KDC_WAIT, MOST_BUFFERS, MOST_CLIENTS, MOST_CLIENTS_PER_PEER, MOST_WORKERS,
    default_clients_per_peer,
};
use clap::ArgMatches;

/// The value of an option.
pub(crate) fn text_of<'a>(options: &ArgMatches<'a>, name: &str) -> Option<&'a str>
    ensures value { option_map (λ s. s.now) result
        ≡ first_of name.now (rows_of (found_of options.now)) }
{
    options.get_str(name)
}

/// Whether a flag is given.
pub(crate) fn is_given(options: &ArgMatches<'_>, name: &str) -> bool
    ensures given { IsGiven (rows_of (found_of options.now)) name.now result }
{
    options.get_flag(name)
}

// The number of an option, if it is at least 1 and no greater than this.
fn number_of(options: &ArgMatches<'_>, name: &str, greatest: u32) -> Option<u32>
    ensures number { IfSome result (HasNumber 1 greatest (rows_of (found_of options.now)) name.now) }
    ensures range { IfSome result (λ number. (1 ≤ number) × (number ≤ greatest)) }
    ensures lacks { result ≡ None → LacksNumber 1 greatest (rows_of (found_of options.now)) name.now }
    ensures taken { HasTakenNumber greatest (rows_of (found_of options.now)) name.now → result ≢ None }
{
    match options.get_one::<u32>(name) {
        Some(number) if 1 <= number && number <= greatest => Some(number),
        _ => None,
    }
}

/// The port's number.
#[tactic(auto, using(crate::proofs::NeedLemmas::number_there))]
pub(crate) fn port_of(options: &ArgMatches<'_>) -> Option<u16>
    ensures port { IfSome result (HasNumber 1 65535 (rows_of (found_of options.now)) (codes "port")) }
    ensures lacks { result ≡ None → LacksNumber 1 65535 (rows_of (found_of options.now)) (codes "port") }
    ensures taken { Suits (filled options_of.port) (rows_of (found_of options.now)) → result ≢ None }
{
    let port = number_of(options, "port", u32::from(GREATEST_PORT))?;
    Some(port as u16)
}

/// How many workers there are.
#[tactic(auto, using(crate::proofs::NeedLemmas::number_there))]
pub(crate) fn workers_of(options: &ArgMatches<'_>) -> Option<u8>
    ensures workers { IfSome result (HasNumber 1 16 (rows_of (found_of options.now)) (codes "workers")) }
    ensures lacks { result ≡ None → LacksNumber 1 16 (rows_of (found_of options.now)) (codes "workers") }
    ensures taken { Suits (filled options_of.workers) (rows_of (found_of options.now)) → result ≢ None }
{
    let workers = number_of(options, "workers", u32::from(MOST_WORKERS))?;
    Some(workers as u8)
}

/// After how many connections it ends; none if the value says neither that nor `unlimited`.
#[tactic(auto, using(crate::proofs::NeedLemmas::required_there))]
pub(crate) fn connections_of(options: &ArgMatches<'_>) -> Option<ConnectionLimit>
    ensures limit { IfSome result (HasLimit (rows_of (found_of options.now))) }
    ensures none { Suits (filled options_of.connections) (rows_of (found_of options.now)) → result ≡ None
        → LacksLimit (rows_of (found_of options.now)) }
{
    let text = text_of(options, "connections")?;
    limit_in(text)
}

// The limit that a text says.
fn limit_in(text: &str) -> Option<ConnectionLimit>
    ensures limit { IfSome result (IsLimit text.now) }
    ensures none { result ≡ None → (limit : ConnectionLimit) → ¬ (IsLimit text.now limit) }
{
    match text {
        "unlimited" => Some(ConnectionLimit::Unlimited),
        _ => number_in(text),
    }
}

// The limit that a number from 1 on says.
fn number_in(text: &str) -> Option<ConnectionLimit>
    ensures number { IfSome result (IsLimit text.now) }
    ensures none { result ≡ None → (number : ℕ) → ¬ (IsLimit text.now (ConnectionLimit.Of number)) }
{
    match text.parse::<u32>() {
        Ok(number) if number >= 1 => Some(ConnectionLimit::Of(number)),
        _ => None,
    }
}

// The number of an option with this default.
#[tactic(auto, using(crate::proofs::NeedLemmas::given_taken))]
fn number_or(options: &ArgMatches<'_>, name: &str, default: u32, greatest: u32) -> Option<u32>
    ensures number { IfSome result
        (HasNumberOr default 1 greatest (rows_of (found_of options.now)) name.now) }
    ensures range { IfSome result (λ number. (number ≡ default) ⊎ ((1 ≤ number) × (number ≤ greatest))) }
    ensures lacks { result ≡ None → LacksGiven 1 greatest (rows_of (found_of options.now)) name.now }
    ensures taken { Suits (filled (may_be_numbered name.now greatest)) (rows_of (found_of options.now))
        → result ≢ None }
{
    if text_of(options, name).is_none() {
        return Some(default);
    }
    number_of(options, name, greatest)
}

/// How long a connection waits for its client.
pub(crate) fn idle_of(options: &ArgMatches<'_>) -> Option<u16>
    ensures idle { IfSome result (HasNumberOr 30 1 3600 (rows_of (found_of options.now)) (codes "idle")) }
    ensures lacks { result ≡ None → LacksGiven 1 3600 (rows_of (found_of options.now)) (codes "idle") }
    ensures taken { Suits (filled options_of.idle) (rows_of (found_of options.now)) → result ≢ None }
{
    let idle = number_or(
        options,
        "idle",
        u32::from(DEFAULT_IDLE),
        u32::from(LONGEST_IDLE),
    )?;
    Some(idle as u16)
}

/// How many connections are open at a time.
pub(crate) fn clients_of(options: &ArgMatches<'_>) -> Option<u32>
    ensures clients { IfSome result
        (HasNumberOr 1024 1 65536 (rows_of (found_of options.now)) (codes "clients")) }
    ensures lacks { result ≡ None → LacksGiven 1 65536 (rows_of (found_of options.now)) (codes "clients") }
    ensures taken { Suits (filled options_of.clients) (rows_of (found_of options.now)) → result ≢ None }
{
    number_or(options, "clients", DEFAULT_CLIENTS, MOST_CLIENTS)
}

/// How many of these connections one peer may have at a time.
pub(crate) fn clients_per_peer_of(options: &ArgMatches<'_>, clients: u32) -> Option<u32>
    requires few { clients ≤ 65536 }
    ensures clients_per_peer { IfSome result
        (HasNumberOr (default_per_peer clients) 1 65536 (rows_of (found_of options.now)) (codes "clients-per-peer")) }
    ensures lacks { result ≡ None
        → LacksGiven 1 65536 (rows_of (found_of options.now)) (codes "clients-per-peer") }
    ensures taken { Suits (filled options_of.clients_per_peer) (rows_of (found_of options.now)) → result ≢ None }
{
    let default = default_clients_per_peer(clients);
    number_or(options, "clients-per-peer", default, MOST_CLIENTS_PER_PEER)
}

/// How many MiB the messages and replies of all connections may hold.
pub(crate) fn buffers_of(options: &ArgMatches<'_>) -> Option<u16>
    ensures buffers { IfSome result
        (HasNumberOr 32 1 1024 (rows_of (found_of options.now)) (codes "buffers")) }
    ensures lacks { result ≡ None → LacksGiven 1 1024 (rows_of (found_of options.now)) (codes "buffers") }
    ensures taken { Suits (filled options_of.buffers) (rows_of (found_of options.now)) → result ≢ None }
{
    let buffers = number_or(
        options,
        "buffers",
        u32::from(DEFAULT_BUFFERS),
        u32::from(MOST_BUFFERS),
    )?;
    Some(buffers as u16)
}

/// How many milliseconds the reply to a change waits for the KDC.
pub(crate) fn kdc_wait_of(options: &ArgMatches<'_>) -> Option<u32>
    ensures kdc_wait { IfSome result
        (HasNumberOr 2000 1 60000 (rows_of (found_of options.now)) (codes "kdc-wait")) }
    ensures lacks { result ≡ None
        → LacksGiven 1 60000 (rows_of (found_of options.now)) (codes "kdc-wait") }
    ensures taken { Suits (filled options_of.kdc_wait) (rows_of (found_of options.now)) → result ≢ None }
{
    number_or(options, "kdc-wait", DEFAULT_KDC_WAIT, LONGEST_KDC_WAIT)
}

/// The iteration count to raise to, if one is given.
#[tactic(auto, using(crate::proofs::NeedLemmas::given_taken))]
pub(crate) fn raise_of(options: &ArgMatches<'_>) -> Option<Option<u32>>
    ensures raise { IfSome result (MayHaveNumber 1 16777216 (rows_of (found_of options.now)) (codes "raise")) }
    ensures lacks { result ≡ None → LacksGiven 1 16777216 (rows_of (found_of options.now)) (codes "raise") }
    ensures taken { Suits (filled options_of.raise) (rows_of (found_of options.now)) → result ≢ None }
{
    if text_of(options, "raise").is_none() {
        return Some(None);
    }
    match number_of(options, "raise", GREATEST_COUNT) {
        Some(count) => Some(Some(count)),
        None => None,
    }
}

/// The iteration count of the keys of a keytab or of a password.
pub(crate) fn iterations_of(options: &ArgMatches<'_>) -> Option<u32>
    ensures iterations { IfSome result
        (HasNumberOr 4096 1 16777216 (rows_of (found_of options.now)) (codes "iterations")) }
    ensures lacks { result ≡ None
        → LacksGiven 1 16777216 (rows_of (found_of options.now)) (codes "iterations") }
    ensures taken { Suits (filled options_of.iterations) (rows_of (found_of options.now)) → result ≢ None }
{
    number_or(options, "iterations", DEFAULT_COUNT, GREATEST_COUNT)
}

/// The version of keys that are made of a password.
pub(crate) fn kvno_of(options: &ArgMatches<'_>) -> Option<u32>
    ensures kvno { IfSome result
        (HasNumberOr 1 1 4294967295 (rows_of (found_of options.now)) (codes "kvno")) }
    ensures lacks { result ≡ None → LacksGiven 1 4294967295 (rows_of (found_of options.now)) (codes "kvno") }
    ensures taken { Suits (filled options_of.kvno) (rows_of (found_of options.now)) → result ≢ None }
{
    number_or(options, "kvno", DEFAULT_KVNO, GREATEST_KVNO)
}
