//! Why words in which clap finds no fault are refused.
ghost use Rattle.std.specs.Prelude.{◌≡◌, [], None, Some, false, true, codes, option_map};
ghost use Rattle.clap.specs.Simple.{filled};
ghost use Rattle.clap.specs.Words.{first_of, found_of, rows_of, subcommand_rows_of};
ghost use Rattle.chpw_invocation.specs.Controls as controls;
ghost use Rattle.chpw_invocation.specs.Invocations.{AimsOld, IsOwnReason, IsOwnRefusal, RefusesClient, RefusesControl};
ghost use Rattle.chpw_invocation.specs.Invocations.{LacksKdc, RefusesImport, RefusesServe, import_refusal, is_realm};
ghost use Rattle.chpw_invocation.specs.Needs.{IsSuited, Meets, Suits};
ghost use Rattle.chpw_invocation.specs.Options.{flag};
ghost use Rattle.chpw_invocation.specs.Program.{serve};
ghost use Rattle.chpw_invocation.specs.Refusals.{kind_for, text_for};

use crate::invocation::LONGEST_REALM;
use crate::matching::listen_of;
use crate::values::{is_given, text_of};
use chpw_control::Command;
use clap::ArgMatches;
use clap::error::ErrorKind;

/// Why words in which clap finds no fault are refused.
#[derive(Clone, Copy, Drop)]
pub(crate) enum Refusal {
    /// `client` has a target, and is to ask in the earlier protocol, which has none.
    OldTarget,
    /// `client` has a password on the command line and another in a file.
    TwoPasswords,
    /// `client` has no password.
    NoPassword,
    /// `control` has a word that names no command.
    NoCommand,
    /// `control` has a command that takes a file, and no file.
    NoFile,
    /// `control` has a command that takes no file, and a file.
    SpareFile,
    /// `table` has an unknown form.
    NoForm,
    /// `serve` has a value of `--connections` that is neither a number from 1 to 4,294,967,295 nor `unlimited`.
    NoLimit,
    /// `serve` requires the KDC to be in reach, and has none.
    NoKdc,
    /// `serve` has a value of `--listen` that is no address.
    NoAddress,
    /// `serve` has the same address twice.
    SameAddress,
    /// `serve` has more than 64 addresses.
    ManyAddresses,
    /// `serve` is to take datagrams at all addresses, by 0.0.0.0 or ::, where none tells at which one it came.
    AnyDatagrams,
    /// The realm is empty or has more than 255 bytes.
    NoRealm,
    /// `import` has a KDC, and a keytab or its realm.
    SpareSource,
    /// `import` has neither a KDC nor a keytab with its realm.
    NoSource,
    /// `import` has a configuration for a keytab.
    SpareConfig,
}

impl Refusal {
    /// The kind of its error.
    pub(crate) fn kind(self) -> ErrorKind
        ensures value { result ≡ kind_for self }
    {
        match self {
            Refusal::OldTarget | Refusal::TwoPasswords => ErrorKind::ArgumentConflict,
            Refusal::SpareSource | Refusal::SpareConfig | Refusal::AnyDatagrams => {
                ErrorKind::ArgumentConflict
            }
            Refusal::NoPassword | Refusal::NoFile | Refusal::NoSource | Refusal::NoKdc => {
                ErrorKind::MissingRequiredArgument
            }
            Refusal::NoCommand | Refusal::NoForm | Refusal::NoLimit | Refusal::NoRealm => {
                ErrorKind::InvalidValue
            }
            Refusal::NoAddress | Refusal::SameAddress | Refusal::ManyAddresses => {
                ErrorKind::InvalidValue
            }
            Refusal::SpareFile => ErrorKind::UnknownArgument,
        }
    }

    /// The text of its error; of two options that exclude each other in clap's words.
    pub(crate) fn text(self) -> &'static str
        ensures value { result.now ≡ text_for self }
    {
        match self {
            Refusal::OldTarget => "the argument '--old' cannot be used with '--target <NAME>'",
            Refusal::TwoPasswords => {
                "the argument '--password <TEXT>' cannot be used with '--password-file <FILE>'"
            }
            Refusal::NoPassword => {
                "either '--password <TEXT>' or '--password-file <FILE>' is required"
            }
            Refusal::NoCommand => {
                "a value for '<COMMAND>' is one of: status, reload, reopen-log, stop, compact"
            }
            Refusal::NoFile => "the command 'compact' requires a '<FILE>'",
            Refusal::SpareFile => "only the command 'compact' takes a '<FILE>'",
            Refusal::NoForm => "a value for '--as <FORM>' is one of: lines, configuration, keys",
            Refusal::NoLimit => {
                "a value for '--connections <N>' is a number from 1 to 4294967295, or unlimited"
            }
            Refusal::NoKdc => "the argument '--require-kdc' requires '--kdc <SOCKET>'",
            Refusal::NoAddress => {
                "a value for '--listen <ADDRESS>' is an address of IPv4 or IPv6, without a port"
            }
            Refusal::SameAddress => "the argument '--listen <ADDRESS>' has the same address twice",
            Refusal::ManyAddresses =>
                "the argument '--listen <ADDRESS>' has more than 64 addresses",
            Refusal::AnyDatagrams => {
                "the argument '--udp' cannot be used with '--listen 0.0.0.0' or '--listen ::'"
            }
            Refusal::NoRealm => "a value for '--realm <REALM>' has 1 to 255 bytes",
            Refusal::SpareSource => {
                "the argument '--kdc <SOCKET>' cannot be used with '--keytab <FILE>' or '--realm <REALM>'"
            }
            Refusal::NoSource => {
                "either '--keytab <FILE>' with '--realm <REALM>' or '--kdc <SOCKET>' is required"
            }
            Refusal::SpareConfig => {
                "the argument '--config <FILE>' cannot be used with '--keytab <FILE>'"
            }
        }
    }
}

/// Why the words that clap matched are refused. A command that isn't named here has only one reason.
pub(crate) fn refusal_of(matches: &ArgMatches<'_>) -> Refusal
    ensures why { IsSuited (subcommand_rows_of matches.now) → IsOwnReason (subcommand_rows_of matches.now)
        → IsOwnRefusal (subcommand_rows_of matches.now) result }
{
    let Some((name, options)) = matches.subcommand() else {
        return Refusal::NoRealm;
    };
    match name {
        "client" => client_refusal(options),
        "control" => control_refusal(options),
        "import" => refusal_of_import(options),
        "table" => Refusal::NoForm,
        "serve" => refusal_of_serve(options),
        _ => Refusal::NoRealm,
    }
}

// Why `client` is refused.
fn client_refusal(options: &ArgMatches<'_>) -> Refusal
    ensures why { Suits (filled (flag (codes "old"))) (rows_of (found_of options.now))
        → (refusal : Refusal) → RefusesClient (rows_of (found_of options.now)) refusal
        → RefusesClient (rows_of (found_of options.now)) result }
{
    if aims_old(options) {
        Refusal::OldTarget
    } else if text_of(options, "password").is_some() {
        Refusal::TwoPasswords
    } else {
        Refusal::NoPassword
    }
}

// Why `control` is refused.
fn control_refusal(options: &ArgMatches<'_>) -> Refusal
    ensures why { (refusal : Refusal) → RefusesControl (rows_of (found_of options.now)) refusal
        → RefusesControl (rows_of (found_of options.now)) result }
{
    match text_of(options, "command") {
        None => Refusal::NoCommand,
        Some(word) => match takes_file(word) {
            None => Refusal::NoCommand,
            Some(true) => Refusal::NoFile,
            Some(false) => Refusal::SpareFile,
        },
    }
}

// Why `serve` is refused.
fn refusal_of_serve(options: &ArgMatches<'_>) -> Refusal
    ensures why { Meets serve (rows_of (found_of options.now))
        → (refusal : Refusal) → RefusesServe (rows_of (found_of options.now)) refusal
        → RefusesServe (rows_of (found_of options.now)) result }
{
    if lacks_kdc(options) {
        return Refusal::NoKdc;
    }
    match listen_of(options) {
        Err(refusal) => refusal,
        Ok(_) => Refusal::NoLimit,
    }
}

/// Whether the KDC has to be in reach, and there is none.
pub(crate) fn lacks_kdc(options: &ArgMatches<'_>) -> bool
    ensures lacks { result ≡ true → LacksKdc (rows_of (found_of options.now)) }
    ensures own { Suits (filled (flag (codes "require-kdc"))) (rows_of (found_of options.now)) → result ≡ false
        → LacksKdc (rows_of (found_of options.now)) → ⊥ }
{
    is_given(options, "require-kdc") && text_of(options, "kdc").is_none()
}

// Why `import` is refused.
fn refusal_of_import(options: &ArgMatches<'_>) -> Refusal
    ensures why { (refusal : Refusal) → RefusesImport (rows_of (found_of options.now)) refusal
        → RefusesImport (rows_of (found_of options.now)) result }
{
    match import_refusal(options) {
        Some(refusal) => refusal,
        None => Refusal::NoRealm,
    }
}

/// Why `import` is refused, if it is.
pub(crate) fn import_refusal(options: &ArgMatches<'_>) -> Option<Refusal>
    ensures value { result ≡ import_refusal (first_of (codes "kdc") (rows_of (found_of options.now)))
        (first_of (codes "keytab") (rows_of (found_of options.now)))
        (first_of (codes "realm") (rows_of (found_of options.now)))
        (first_of (codes "config") (rows_of (found_of options.now))) }
{
    source_refusal(
        text_of(options, "kdc"),
        text_of(options, "keytab"),
        text_of(options, "realm"),
        text_of(options, "config"),
    )
}

fn source_refusal(
    kdc: Option<&str>,
    keytab: Option<&str>,
    realm: Option<&str>,
    config: Option<&str>,
) -> Option<Refusal>
    ensures value { result ≡ import_refusal (option_map (λ t. t.now) kdc.entry)
        (option_map (λ t. t.now) keytab.entry) (option_map (λ t. t.now) realm.entry)
        (option_map (λ t. t.now) config.entry) }
{
    match (kdc, keytab, realm) {
        (Some(_), None, None) => None,
        (Some(_), _, _) => Some(Refusal::SpareSource),
        (None, Some(_), Some(realm)) => keytab_refusal(realm, config),
        (None, _, _) => Some(Refusal::NoSource),
    }
}

// Why the keys of a keytab of this realm are not imported, if they aren't.
fn keytab_refusal(realm: &str, config: Option<&str>) -> Option<Refusal>
    ensures value { result ≡ import_refusal None (Some []) (Some realm.now) (option_map (λ t. t.now) config.entry) }
{
    if config.is_some() {
        Some(Refusal::SpareConfig)
    } else if is_realm(realm) {
        None
    } else {
        Some(Refusal::NoRealm)
    }
}

/// Whether a realm has 1 to 255 bytes.
pub(crate) fn is_realm(realm: &str) -> bool
    ensures value { result ≡ is_realm realm.now }
{
    1 <= realm.len() && realm.len() <= LONGEST_REALM
}

// Whether the command of this word takes a file; none if there is no such command.
fn takes_file(word: &str) -> Option<bool>
    ensures value { result ≡ controls.takes_file word.now }
{
    match Command::<()>::named(word.as_bytes()) {
        Some(command) => Some(command.takes_file()),
        None => None,
    }
}

// Whether `client` is to ask in the earlier protocol although it has a target.
fn aims_old(options: &ArgMatches<'_>) -> bool
    ensures aims { result ≡ true → AimsOld (rows_of (found_of options.now)) }
    ensures own { Suits (filled (flag (codes "old"))) (rows_of (found_of options.now)) → result ≡ false
        → AimsOld (rows_of (found_of options.now)) → ⊥ }
{
    is_given(options, "old") && text_of(options, "target").is_some()
}
