//! What the words of the command line ask for.
ghost use Rattle.std.specs.Prelude.{◌≡◌, ◌≢◌, ◌⊎◌, [], None, true, false, IfErr, IfOk, IfSome, OnOk, codes, map, string_bytes};
ghost use Rattle.clap.specs.Faults.{fault_of};
ghost use Rattle.clap.specs.Words.{app_of, first_of, found_of, rows_of, subcommand_of, subcommand_rows_of};
ghost use Rattle.clap.specs.Simple.{filled};
ghost use Rattle.chpw_invocation.specs.Needs.{IsSuited, Meets, Suits};
ghost use Rattle.chpw_invocation.specs.Options.{required, required_word};
ghost use Rattle.chpw_invocation.specs.Program as specs_of;
ghost use Rattle.chpw_invocation.specs.Invocations.{AsksBounds, AsksFor, HasNoPassword};
ghost use Rattle.chpw_invocation.specs.Invocations.{HasPassword, HasRealm, HasText};
ghost use Rattle.chpw_invocation.specs.Invocations.{HasTwoPasswords, IsInFile, IsOwnError, IsOwnReason, IsRefusal};
ghost use Rattle.chpw_invocation.specs.Invocations.{LacksLimit, LacksRealm};
ghost use Rattle.chpw_invocation.specs.Invocations.{Listens, RefusesListen, given};
ghost use Rattle.chpw_invocation.specs.Invocations.{RefusesClient, RefusesControl, RefusesImport, RefusesServe, form_asked, form_of_name};
ghost use Rattle.chpw_invocation.specs.Controls as controls;
ghost use Rattle.chpw_invocation.specs.Controls.{file_of, word_of};
ghost use Rattle.chpw_invocation.specs.Addresses.{IsListening, IsNoList};
ghost use Rattle.chpw_invocation.specs.Listening.{listened};

use crate::addresses::addresses_of;
use crate::invocation::{
    Bounds, ClientOptions, ControlOptions, ImportOptions, Invocation, KdcOptions, KeyOptions,
    LONGEST_REALM, NewJournalOptions, PasswordSource, ServeOptions, TableForm, TableOptions,
};
use crate::listening::ListenAddresses;
use crate::program::program as new_program;
use crate::refusing::{Refusal, import_refusal, lacks_kdc, refusal_of};
use crate::values::{
    buffers_of, clients_of, clients_per_peer_of, connections_of, idle_of, is_given, iterations_of,
    kdc_wait_of, kvno_of, port_of, raise_of, text_of, workers_of,
};
use chpw_control::Command;
use clap::{ArgMatches, Error};
use std::alloc::{AllocError, Global};

/// The command that the words ask for, the first of them the program's name.
///
/// For any other words, the error says what is wrong with them, and for words that ask for help or the version it is
/// that text; its kind is `OutOfMemory` if memory ran out.
pub fn command_of<'a>(alloc: Global, words: &'a [String]) -> Result<Invocation<'a>, Error>
    ensures asked { IfOk result (AsksFor (subcommand_of specs_of.program (map string_bytes words.entry.now))) }
    ensures taken { OnOk result (fault_of specs_of.program (map string_bytes words.entry.now) ≡ []) }
    ensures refused { IfErr result
        (IsRefusal (fault_of specs_of.program (map string_bytes words.entry.now))
        (subcommand_of specs_of.program (map string_bytes words.entry.now))) }
{
    let mut program = new_program(alloc)?;
    invocation_in(&mut program, words)
}

// What the words ask the program for.
fn invocation_in<'a>(
    program: &mut clap::Command<'a>,
    words: &'a [String],
) -> Result<Invocation<'a>, Error>
    requires whole { app_of program.old ≡ specs_of.program }
    requires local { specs_of.IsLocal program.old }
    ensures asked { IfOk result (AsksFor (subcommand_of specs_of.program (map string_bytes words.entry.now))) }
    ensures taken { OnOk result (fault_of specs_of.program (map string_bytes words.entry.now) ≡ []) }
    ensures refused { IfErr result
        (IsRefusal (fault_of specs_of.program (map string_bytes words.entry.now))
        (subcommand_of specs_of.program (map string_bytes words.entry.now))) }
{
    let matches = program.try_get_matches_from_mut(words)?;
    match asked_of(&matches) {
        Some(invocation) => Ok(invocation),
        None => Err(own_error(program, &matches)?),
    }
}

// The error for words in which clap finds no fault.
fn own_error(program: &mut clap::Command<'_>, matches: &ArgMatches<'_>) -> Result<Error, AllocError>
    ensures own { IsSuited (subcommand_rows_of matches.now) → IsOwnReason (subcommand_rows_of matches.now)
        → IfOk result (IsOwnError (subcommand_rows_of matches.now)) }
{
    let refusal = refusal_of(matches);
    program.error(refusal.kind(), refusal.text())
}

// The command that was matched; there is one after every parse, since the program requires one and each command its
// options, except for the program's own reasons.
fn asked_of<'a>(matches: &ArgMatches<'a>) -> Option<Invocation<'a>>
    ensures asked { IfSome result (AsksFor (subcommand_rows_of matches.now)) }
    ensures none { IsSuited (subcommand_rows_of matches.now) → result ≡ None
        → IsOwnReason (subcommand_rows_of matches.now) }
{
    let (name, options) = matches.subcommand()?;
    match name {
        "drill" => Some(Invocation::Drill),
        "check" => check_of(options),
        "table" => table_of(options),
        "import" => import_of(options),
        "key" => key_of(options),
        "new-journal" => new_journal_of(options),
        "serve" => serve_of(options),
        "control" => control_of(options),
        "client" => client_of(options),
        _ => None,
    }
}

#[tactic(auto, using(crate::proofs::NeedLemmas::required_there))]
fn check_of<'a>(options: &ArgMatches<'a>) -> Option<Invocation<'a>>
    ensures asked { IfSome result (AsksFor (Some (codes "check", rows_of (found_of options.now)))) }
    ensures whole { Meets specs_of.check (rows_of (found_of options.now)) → result ≢ None }
{
    let config = text_of(options, "config")?;
    Some(Invocation::Check { config })
}

#[tactic(auto, using(crate::proofs::NeedLemmas::required_there))]
fn table_of<'a>(options: &ArgMatches<'a>) -> Option<Invocation<'a>>
    ensures asked { IfSome result (AsksFor (Some (codes "table", rows_of (found_of options.now)))) }
    ensures none { Meets specs_of.table (rows_of (found_of options.now)) → result ≡ None
        → form_asked (rows_of (found_of options.now)) ≡ None }
{
    Some(Invocation::Table(TableOptions {
        config: text_of(options, "config")?,
        journal: text_of(options, "journal")?,
        form: form_of(options)?,
    }))
}

// The form that is asked for; none if there is no such form.
fn form_of(options: &ArgMatches<'_>) -> Option<TableForm>
    ensures value { result ≡ form_asked (rows_of (found_of options.now)) }
{
    match text_of(options, "as") {
        None => Some(TableForm::Lines),
        Some(name) => form_named(name),
    }
}

fn form_named(name: &str) -> Option<TableForm>
    ensures value { result ≡ form_of_name name.now }
{
    match name {
        "lines" => Some(TableForm::Lines),
        "configuration" => Some(TableForm::Configuration),
        "keys" => Some(TableForm::Keys),
        _ => None,
    }
}

fn import_of<'a>(options: &ArgMatches<'a>) -> Option<Invocation<'a>>
    ensures asked { IfSome result (AsksFor (Some (codes "import", rows_of (found_of options.now)))) }
    ensures none { Meets specs_of.import (rows_of (found_of options.now)) → result ≡ None
        → (refusal : Refusal) × RefusesImport (rows_of (found_of options.now)) refusal }
{
    if import_refusal(options).is_some() {
        return None;
    }
    let iterations = iterations_of(options)?;
    match (text_of(options, "kdc"), text_of(options, "keytab")) {
        (Some(socket), _) => Some(Invocation::ImportKdc(KdcOptions {
            socket,
            config: text_of(options, "config"),
            iterations,
        })),
        (None, Some(keytab)) => Some(Invocation::Import(ImportOptions {
            keytab,
            realm: realm_of(options)?,
            iterations,
        })),
        (None, None) => None,
    }
}

fn key_of<'a>(options: &ArgMatches<'a>) -> Option<Invocation<'a>>
    ensures asked { IfSome result (AsksFor (Some (codes "key", rows_of (found_of options.now)))) }
    ensures none { Meets specs_of.key (rows_of (found_of options.now)) → result ≡ None
        → LacksRealm (rows_of (found_of options.now)) }
{
    Some(Invocation::Key(KeyOptions {
        realm: realm_of(options)?,
        name: text_of(options, "name")?,
        password_file: text_of(options, "password-file")?,
        iterations: iterations_of(options)?,
        kvno: kvno_of(options)?,
    }))
}

// The realm, if its length is within the limits.
#[tactic(auto, using(crate::proofs::NeedLemmas::required_there))]
fn realm_of<'a>(options: &ArgMatches<'a>) -> Option<&'a str>
    ensures realm { IfSome result (λ realm. HasRealm (rows_of (found_of options.now)) realm.now) }
    ensures none { Suits (filled (required (codes "realm"))) (rows_of (found_of options.now)) → result ≡ None
        → LacksRealm (rows_of (found_of options.now)) }
{
    let realm = text_of(options, "realm")?;
    if realm.is_empty() || realm.len() > LONGEST_REALM {
        return None;
    }
    Some(realm)
}

#[tactic(auto, using(crate::proofs::NeedLemmas::required_there))]
fn new_journal_of<'a>(options: &ArgMatches<'a>) -> Option<Invocation<'a>>
    ensures asked { IfSome result (AsksFor (Some (codes "new-journal", rows_of (found_of options.now)))) }
    ensures whole { Meets specs_of.new_journal (rows_of (found_of options.now)) → result ≢ None }
{
    Some(Invocation::NewJournal(NewJournalOptions {
        config: text_of(options, "config")?,
        journal: text_of(options, "journal")?,
        resume: text_of(options, "resume"),
    }))
}

fn serve_of<'a>(options: &ArgMatches<'a>) -> Option<Invocation<'a>>
    ensures asked { IfSome result (AsksFor (Some (codes "serve", rows_of (found_of options.now)))) }
    ensures none { Meets specs_of.serve (rows_of (found_of options.now)) → result ≡ None
        → (refusal : Refusal) × RefusesServe (rows_of (found_of options.now)) refusal }
{
    if lacks_kdc(options) {
        return None;
    }
    match listen_of(options) {
        Ok(listen) => service_of(options, listen),
        Err(_) => None,
    }
}

// A service whose options agree.
fn service_of<'a>(options: &ArgMatches<'a>, listen: ListenAddresses) -> Option<Invocation<'a>>
    requires listen { Listens (rows_of (found_of options.now)) (listened listen) }
    ensures asked { IfSome result (AsksFor (Some (codes "serve", rows_of (found_of options.now)))) }
    ensures none { Meets specs_of.serve (rows_of (found_of options.now)) → result ≡ None
        → LacksLimit (rows_of (found_of options.now)) }
{
    let bounds = bounds_of(options)?;
    Some(Invocation::Serve(ServeOptions {
        config: text_of(options, "config")?,
        journal: text_of(options, "journal")?,
        seed: text_of(options, "seed")?,
        port: port_of(options)?,
        listen,
        workers: bounds.workers,
        connections: bounds.connections,
        idle: bounds.idle,
        clients: bounds.clients,
        clients_per_peer: bounds.clients_per_peer,
        buffers: bounds.buffers,
        raise: bounds.raise,
        log: text_of(options, "log"),
        resume: text_of(options, "resume"),
        kdc: text_of(options, "kdc"),
        kdc_wait: bounds.kdc_wait,
        require_kdc: is_given(options, "require-kdc"),
        control: text_of(options, "control"),
        udp: is_given(options, "udp"),
        rfc3244_only: is_given(options, "rfc3244-only"),
        strict_messages: is_given(options, "strict-messages"),
        strict_modes: is_given(options, "strict-modes"),
        existing_journal: is_given(options, "existing-journal"),
    }))
}

// The numbers of a service.
fn bounds_of(options: &ArgMatches<'_>) -> Option<Bounds>
    ensures asked { IfSome result (AsksBounds (rows_of (found_of options.now))) }
    ensures none { Meets specs_of.serve (rows_of (found_of options.now)) → result ≡ None
        → LacksLimit (rows_of (found_of options.now)) }
{
    let clients = clients_of(options)?;
    Some(Bounds {
        workers: workers_of(options)?,
        connections: connections_of(options)?,
        idle: idle_of(options)?,
        clients,
        clients_per_peer: clients_per_peer_of(options, clients)?,
        buffers: buffers_of(options)?,
        raise: raise_of(options)?,
        kdc_wait: kdc_wait_of(options)?,
    })
}

// The command for a running service, with its socket.
#[tactic(auto, using(crate::proofs::NeedLemmas::required_there))]
fn control_of<'a>(options: &ArgMatches<'a>) -> Option<Invocation<'a>>
    ensures asked { IfSome result (AsksFor (Some (codes "control", rows_of (found_of options.now)))) }
    ensures none { Meets specs_of.control (rows_of (found_of options.now)) → result ≡ None
        → (refusal : Refusal) × RefusesControl (rows_of (found_of options.now)) refusal }
{
    Some(Invocation::Control(ControlOptions {
        socket: text_of(options, "socket")?,
        command: control_command(options)?,
    }))
}

// The command for a running service, with its file if it takes one.
fn control_command<'a>(options: &ArgMatches<'a>) -> Option<Command<&'a str>>
    ensures word { IfSome result (λ c. HasText (rows_of (found_of options.now)) (codes "command") (word_of c)) }
    ensures file { IfSome result (λ c. file_of c ≡ first_of (codes "file") (rows_of (found_of options.now))) }
    ensures none { Suits (filled (required_word (codes "command"))) (rows_of (found_of options.now))
        → result ≡ None → (refusal : Refusal) × RefusesControl (rows_of (found_of options.now)) refusal }
{
    let word = text_of(options, "command")?;
    match text_of(options, "file") {
        None => without_file(word),
        Some(file) => with_file(word, file),
    }
}

fn without_file<'a>(word: &str) -> Option<Command<&'a str>>
    ensures word { IfSome result (λ c. word_of c ≡ word.now) }
    ensures file { IfSome result (λ c. file_of c ≡ None) }
    ensures none { result ≡ None → controls.takes_file word.now ≢ Some false }
{
    let command = Command::<()>::named(word.as_bytes())?;
    command.with_file(None)
}

fn with_file<'a>(word: &str, file: &'a str) -> Option<Command<&'a str>>
    ensures word { IfSome result (λ c. word_of c ≡ word.now) }
    ensures file { IfSome result (λ c. file_of c ≡ Some file.now) }
    ensures none { result ≡ None → controls.takes_file word.now ≢ Some true }
{
    let command = Command::<()>::named(word.as_bytes())?;
    command.with_file(Some(file))
}

fn client_of<'a>(options: &ArgMatches<'a>) -> Option<Invocation<'a>>
    ensures asked { IfSome result (AsksFor (Some (codes "client", rows_of (found_of options.now)))) }
    ensures none { Meets specs_of.client (rows_of (found_of options.now)) → result ≡ None
        → (refusal : Refusal) × RefusesClient (rows_of (found_of options.now)) refusal }
{
    let target = text_of(options, "target");
    let old = is_given(options, "old");
    if old && target.is_some() {
        return None;
    }
    Some(Invocation::Client(ClientOptions {
        config: text_of(options, "config")?,
        seed: text_of(options, "seed")?,
        port: port_of(options)?,
        client: text_of(options, "client")?,
        password: password_of(options)?,
        target,
        no_initial: is_given(options, "no-initial"),
        old,
    }))
}

// Where the new password comes from; none if two sources are given, or none.
fn password_of<'a>(options: &ArgMatches<'a>) -> Option<PasswordSource<'a>>
    ensures password { IfSome result (HasPassword (rows_of (found_of options.now))) }
    ensures none { result ≡ None → HasTwoPasswords (rows_of (found_of options.now))
        ⊎ HasNoPassword (rows_of (found_of options.now)) }
{
    match (
        text_of(options, "password"),
        text_of(options, "password-file"),
    ) {
        (Some(text), None) => Some(PasswordSource::Text(text)),
        (None, Some(file)) => Some(in_file(file)),
        _ => None,
    }
}

// The password in the file of this name.
fn in_file<'a>(name: &'a str) -> PasswordSource<'a>
    ensures file { IsInFile name.now result }
{
    match name {
        "-" => PasswordSource::StandardInput,
        _ => PasswordSource::File(name),
    }
}

/// Where a service listens, if its addresses are such; none may be a wildcard if it takes datagrams.
pub(crate) fn listen_of(options: &ArgMatches<'_>) -> Result<ListenAddresses, Refusal>
    ensures listen { IfOk result (λ l. Listens (rows_of (found_of options.now)) (listened l)) }
    ensures refused { IfErr result (RefusesListen (rows_of (found_of options.now))) }
{
    let listen = given_of(options)?;
    if is_given(options, "udp") && listen.has_wildcard() {
        return Err(Refusal::AnyDatagrams);
    }
    Ok(listen)
}

// The addresses that are given, or the default one.
fn given_of(options: &ArgMatches<'_>) -> Result<ListenAddresses, Refusal>
    ensures listen { IfOk result (λ l. IsListening (given (rows_of (found_of options.now))) (listened l)) }
    ensures refused { IfErr result (IsNoList (given (rows_of (found_of options.now)))) }
{
    match options.get_strs("listen") {
        Some(texts) => addresses_of(texts),
        None => addresses_of(&[]),
    }
}
