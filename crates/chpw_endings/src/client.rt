//! `client`: one request to a service on this machine, and what its reply says.
ghost use Rattle.std.specs.Prelude.{◌≡◌, ◌≢◌, ◌<◌, ◌≤◌, ◌≤ℤ◌, ◌<ℤ◌, ◌++◌, ◌∷◌, [], ℕ, List, pos, true, None, Some, IfErr, IfOk, IfSome};
ghost use Rattle.std.specs.Prelude.{OnOk, length, option_map};
ghost use Rattle.std.specs.Io.KnownBytes.{Appends};
ghost use Rattle.chpw_client.specs.Lines.{IsLine};
ghost use Rattle.chpw_frame.specs.Receiving.{IsReceived};
ghost use Rattle.chpw_frame.specs.Stream.{sent as tcp_text};
ghost use Rattle.chpw_rules.specs.Fitting.{config_fits};
ghost use Rattle.chpw_rules.specs.Names.{is_name, name_of as name_in};
ghost use Rattle.chpw_client.specs.Questions.{latest_second};
ghost use Rattle.chpw_endings.specs.Asking.{Asks, HasAsked, IsNoName, IsNoReply, IsNoTarget, IsUnasked, Names, Tells};
ghost use Rattle.chpw_endings.specs.Controlling.{IsAnswered};
ghost use Rattle.chpw_endings.specs.NewPasswords.{IsPassword};

use crate::ending::Ending;
use crate::new_password::password_of;
use crate::patience::{Patience, Timed, ending_of, longest_wait};
use crate::seeds::warn_of_seed;
use chpw_client::{LAST_START, LONGEST_PASSWORD, SentRequest, client_line, client_request};
use chpw_commands::DrillFault;
use chpw_frame::{LONGEST_MESSAGE, TcpOutcome, read_tcp, write_tcp};
use chpw_invocation::ClientOptions;
use chpw_rules::{Config, Name};
use chpw_serve::WorkerWords;
use chpw_start::{read_seed, read_settings};
use chpw_table::Moment;
use chpw_workers::machine_moment;
use std::alloc::Global;
use std::fs::{File, Files};
use std::io;
use std::io::{ErrorKind, Read, Write};
use std::net::{Ipv4Addr, Net, SocketAddr, TcpStream};
use std::time::Clock;

/// Sends the request, and prints what the reply says. The names, the password and the moment are checked first, then
/// the configuration and the seed are read, `errors` gets a line if the seed is a regular file, and then the service is
/// called. After 30 seconds without a whole reply it gives up.
#[tactic(auto, using(crate::proofs::AskingLemmas::unasked, crate::proofs::AskingLemmas::replied))]
pub fn ask<'a, R, W: Write>(rt: &R, errors: &mut W, options: ClientOptions<'a>) -> Ending<'a>
where
    R: Files<File = File> + Net<Stream = TcpStream> + Clock + Input + Print + AllocGlobal,
    ensures asked { HasAsked options.entry result }
{
    match request(rt, options) {
        Err(ending) => ending,
        Ok(sent) => {
            warn_of_seed(rt, errors, options.seed);
            match exchange(rt, options.port, sent.message.as_slice()) {
                Err(ending) => ending,
                Ok(reply) => print_reply(rt, &sent, reply.as_slice()),
            }
        }
    }
}

// The request.
fn request<'a, R>(rt: &R, options: ClientOptions<'a>) -> Result<SentRequest, Ending<'a>>
where
    R: Files<File = File> + Clock + Input + AllocGlobal,
    ensures asks { IfOk result (Asks options.entry) }
    ensures early { IfErr result IsUnasked }
{
    let client = name_of(rt.alloc(), options.client)?;
    let target = target_of(rt.alloc(), options.target)?;
    let password = password_of(rt, options.password)?;
    request_of(rt, options, &client, &target, password.as_slice())
}

// The request of this client with this target and password, at the machine's moment and under the configuration.
fn request_of<'a, R>(
    rt: &R,
    options: ClientOptions<'a>,
    client: &Name,
    target: &Option<Name>,
    password: &[u8],
) -> Result<SentRequest, Ending<'a>>
where
    R: Files<File = File> + Clock + AllocGlobal,
    requires client { is_name client.now ≡ true }
    requires target { IfSome target.now (λ name. is_name name ≡ true) }
    requires own { options.old ≡ true → target.now ≡ None }
    requires named { name_in options.client.now ≡ Some client.now }
    requires aimed { Names (option_map (λ t. t.now) options.target) target.now }
    requires given { IsPassword options.password password.now }
    ensures asks { IfOk result (Asks options.entry) }
    ensures early { IfErr result IsUnasked }
{
    if password.len() > LONGEST_PASSWORD {
        return Err(Ending::BadArgument);
    }
    let now = moment(rt)?;
    let config = settings(rt, options.config)?;
    request_under(rt, options, &config, now, client, target, password)
}

// The request under a configuration, made with the first stream of the seed's words.
#[tactic(auto, using(crate::proofs::AskingLemmas::asks))]
fn request_under<'a, R: Files<File = File> + AllocGlobal>(
    rt: &R,
    options: ClientOptions<'a>,
    config: &Config,
    now: Moment,
    client: &Name,
    target: &Option<Name>,
    password: &[u8],
) -> Result<SentRequest, Ending<'a>>
    requires fits { config_fits config.now ≡ true }
    requires start { pos 0 ≤ℤ now.seconds }
    requires end { now.seconds ≤ℤ pos latest_second }
    requires micros { now.micros < 1000000 }
    requires client { is_name client.now ≡ true }
    requires target { IfSome target.now (λ name. is_name name ≡ true) }
    requires own { options.old ≡ true → target.now ≡ None }
    requires named { name_in options.client.now ≡ Some client.now }
    requires aimed { Names (option_map (λ t. t.now) options.target) target.now }
    requires given { IsPassword options.password password.now }
    requires short { length password.now ≤ LONGEST_PASSWORD }
    ensures asks { IfOk result (Asks options.entry) }
    ensures early { IfErr result IsUnasked }
{
    let seed = seed_of(rt, options.seed)?;
    if config.service.as_slice().is_empty() {
        return Err(Ending::BadArgument);
    }
    let mut words = WorkerWords::new(seed, 0);
    let sent = client_request(
        rt.alloc(),
        config,
        now,
        client,
        password,
        borrow_target(target),
        !options.no_initial,
        options.old,
        &mut words,
    );
    match sent {
        Ok(sent) => Ok(sent),
        Err(_) => Err(Ending::Early(DrillFault::Memory)),
    }
}

fn settings<'a, R>(rt: &R, file: &'a str) -> Result<Config, Ending<'a>>
where
    R: Files<File = File> + AllocGlobal,
    ensures fits { IfOk result (λ config. config_fits config ≡ true) }
    ensures early { IfErr result IsUnasked }
{
    match read_settings(rt, file) {
        Ok(config) => Ok(config),
        Err(fault) => Err(Ending::Unserved(fault)),
    }
}

fn seed_of<'a, R: Files<File = File>>(rt: &R, file: &'a str) -> Result<[u8; 32], Ending<'a>>
    ensures early { IfErr result IsUnasked }
{
    match read_seed(rt, file) {
        Ok(seed) => Ok(seed),
        Err(fault) => Err(Ending::Unserved(fault)),
    }
}

fn name_of<'a>(alloc: Global, text: &str) -> Result<Name, Ending<'a>>
    ensures fits { IfOk result (λ name. is_name name ≡ true) }
    ensures value { IfOk result (λ name. name_in text.now ≡ Some name) }
    ensures fault { IfErr result (IsNoName text.now) }
    ensures early { IfErr result IsUnasked }
{
    match Name::parse(alloc, text) {
        Ok(Some(name)) => Ok(name),
        Ok(_) => Err(Ending::BadArgument),
        Err(_) => Err(Ending::Early(DrillFault::Memory)),
    }
}

fn target_of<'a>(alloc: Global, text: Option<&str>) -> Result<Option<Name>, Ending<'a>>
    ensures fits { IfOk result (λ found. IfSome found (λ name. is_name name ≡ true)) }
    ensures value { IfOk result (Names (option_map (λ t. t.now) text.entry)) }
    ensures none { text.entry ≡ None → IfOk result (λ found. found ≡ None) }
    ensures fault { IfErr result (IsNoTarget (option_map (λ t. t.now) text.entry)) }
    ensures early { IfErr result IsUnasked }
{
    match text {
        None => Ok(None),
        Some(text) => Ok(Some(name_of(alloc, text)?)),
    }
}

// The target's name; written out, since that gives the fact that it fits.
fn borrow_target(target: &Option<Name>) -> Option<&Name>
    requires fits { IfSome target.now (λ name. is_name name ≡ true) }
    ensures fits { IfSome result (λ name. is_name name.now ≡ true) }
    ensures value { option_map (λ name. name.now) result ≡ target.now }
    ensures none { target.now ≡ None → result ≡ None }
{
    match target {
        Some(name) => Some(name),
        None => None,
    }
}

// The machine's moment, if a ticket of an hour ends within the year 9999.
fn moment<'a, R: Clock>(rt: &R) -> Result<Moment, Ending<'a>>
    ensures start { IfOk result (λ now. pos 0 ≤ℤ now.seconds) }
    ensures end { IfOk result (λ now. now.seconds ≤ℤ pos latest_second) }
    ensures micros { IfOk result (λ now. now.micros < 1000000) }
    ensures early { IfErr result IsUnasked }
{
    in_time(machine_moment(rt))
}

// The moment, if there is one and a ticket of an hour from then on ends within the year 9999.
fn in_time<'a>(now: Option<Moment>) -> Result<Moment, Ending<'a>>
    ensures taken { IfOk result (λ moment. (now ≡ Some moment) × (moment.seconds ≤ℤ pos latest_second)) }
    ensures refused { IfErr result (λ fault. (fault ≡ Ending.BadArgument)
        × IfSome now (λ moment. pos latest_second <ℤ moment.seconds)) }
{
    match now {
        Some(now) if now.seconds <= LAST_START => Ok(now),
        _ => Err(Ending::BadArgument),
    }
}

// The reply to a message, if there is one within 30 seconds.
fn exchange<'a, R>(rt: &R, port: u16, message: &[u8]) -> Result<Vec<u8>, Ending<'a>>
where
    R: Net<Stream = TcpStream> + Clock + AllocGlobal,
    ensures early { IfErr result IsUnasked }
{
    let patience = Patience::start(rt);
    let address = SocketAddr::from((Ipv4Addr::LOCALHOST, port));
    match TcpStream::connect_timeout(rt, &address, longest_wait()) {
        Ok(stream) => {
            let mut service = Timed {
                rt,
                connection: &stream,
                patience,
            };
            let mut replies = Timed {
                rt,
                connection: &stream,
                patience,
            };
            match exchange_over(rt.alloc(), message, &mut service, &mut replies) {
                Ok(reply) => Ok(reply),
                Err(ending) => Err(ending_of(ending, patience.left(rt).is_none())),
            }
        }
        Err(error) => Err(unconnected(error.kind())),
    }
}

// The ending if there is no connection.
fn unconnected<'a>(kind: ErrorKind) -> Ending<'a>
    ensures late { kind ≡ ErrorKind.TimedOut → result ≡ Ending.TimedOut }
    ensures other { kind ≢ ErrorKind.TimedOut → result ≡ Ending.Unconnected }
{
    match kind {
        ErrorKind::TimedOut => Ending::TimedOut,
        _ => Ending::Unconnected,
    }
}

// Writes a message to a service, and reads the reply.
fn exchange_over<'a, S: Write, A: Read>(
    alloc: Global,
    message: &[u8],
    service: &mut S,
    replies: &mut A,
) -> Result<Vec<u8>, Ending<'a>>
    ensures said { IfOk result (λ _. Appends (S.contents service.old) (S.contents service.new) (tcp_text message.now)) }
    ensures reply { IfOk result (λ reply.
        IsReceived (TcpOutcome.Message reply) (A.remaining replies.old) (A.remaining replies.new)) }
    ensures fault { IfErr result IsNoReply }
    ensures early { IfErr result IsUnasked }
{
    if message.len() > LONGEST_MESSAGE || write_tcp(service, message).is_err() {
        return Err(Ending::Unanswered);
    }
    match read_tcp(alloc, replies) {
        Ok(TcpOutcome::Message(reply)) => Ok(reply),
        Ok(_) => Err(Ending::Unanswered),
        Err(_) => Err(Ending::Early(DrillFault::Memory)),
    }
}

// Prints what a reply says.
fn print_reply<'a>(rt: &(impl Print + AllocGlobal), sent: &SentRequest, reply: &[u8]) -> Ending<'a>
    ensures tells { Tells sent.now reply.now result }
{
    tell_reply(rt.alloc(), sent, reply, &mut io::writer(rt))
}

// Writes what a reply says, as a line.
fn tell_reply<'a, W: Write>(
    alloc: Global,
    sent: &SentRequest,
    reply: &[u8],
    out: &mut W,
) -> Ending<'a>
    ensures tells { Tells sent.now reply.now result }
    ensures printed { IsAnswered result → (line : List ℕ) × (status : ℕ) × IsLine sent.now reply.now (Some (line, status))
        × Appends (W.contents out.old) (W.contents out.new) (line ++ 10 ∷ []) }
{
    match client_line(alloc, sent, reply) {
        Err(_) => Ending::Early(DrillFault::Memory),
        Ok(None) => Ending::Unanswered,
        Ok(Some((line, status))) => match put_line(line.as_slice(), out) {
            Err(fault) => Ending::Early(fault),
            Ok(()) if status == 0 => Ending::Good,
            Ok(()) => Ending::Refused,
        },
    }
}

// Writes a line.
fn put_line<W: Write>(line: &[u8], out: &mut W) -> Result<(), DrillFault>
    ensures written { OnOk result (Appends (W.contents out.old) (W.contents out.new) (line.now ++ 10 ∷ [])) }
{
    if out.write_all(line).is_err() || out.write_all(b"\n").is_err() {
        return Err(DrillFault::Write);
    }
    Ok(())
}
