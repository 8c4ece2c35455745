//! The command `import --kdc`: the principals that a KDC has.
ghost use Rattle.std.specs.Prelude.{◌≡◌, ◌⊎◌, [], List, ℕ, Ok, true, IfErr, IfOk, OnOk, codes, option_map};
ghost use Rattle.std.specs.Io.KnownBytes.{Appends};
ghost use Rattle.chpw_rules.specs.Fitting.{are_distinct, principals_fit};
ghost use Rattle.chpw_rules.specs.Names.{is_same_name};
ghost use Rattle.chpw_config.specs.Faults.{UnlessMemory};
ghost use Rattle.chpw_import.specs.Faults.{IsEarly, IsLate};
ghost use Rattle.chpw_import.specs.KdcChoices.{choice_of};
ghost use Rattle.chpw_import.specs.KdcFaults.{Heard, ImportsKdc, IsHeard, IsListed, IsNone, IsOfConfig, IsOfKdc};
ghost use Rattle.chpw_import.specs.KdcFaults.{IsOfList, IsOfPatterns, IsUnheard, answer_listing, patterns_in};
ghost use Rattle.chpw_import.specs.KdcLines.{told};
ghost use Rattle.chpw_import.specs.KdcLists.{names_in};
ghost use Rattle.chpw_import.specs.Stanzas.{AppendsRows};

use crate::fault::KeysFault;
use crate::kdc::choosing::{KdcImport, chosen};
use crate::kdc::fault::ListFault;
use crate::kdc::listing::{Listed, listing_of};
use crate::kdc::reading::{ANSWER, ask, read_answer};
use crate::kdc::telling::told_of;
use crate::output::{ErrorWriter, read_file, stanzas, write_text};
use chpw_config::{ConfigError, ConfigFault, read_kdc};
use chpw_invocation::KdcOptions;
use chpw_rules::NamePatterns;
use std::alloc::Global;
use std::fs::Files;
use std::io::{self, Read, Write};
use std::net::{Net, Shutdown};
use std::os::unix::net::UnixStream;
use std::str;
use std::time::Duration;

/// For how many seconds a read or a write waits for the agent.
const PATIENCE: u64 = 30;

/// `import --kdc` with standard output and standard error: the patterns are those of the configuration's file, if one is
/// given, and otherwise include each name of one component.
pub fn tell_kdc<'a, R: Files + Net + Print + Eprint + AllocGlobal>(
    rt: &R,
    options: KdcOptions<'a>,
) -> Result<(), KeysFault<'a>>
    ensures fault { IfErr result (IsOfKdc options.entry) }
{
    let patterns = patterns_of(rt, options.config)?;
    let Ok(stream) = connect(rt, options.socket) else {
        return Err(KeysFault::Unconnected(options.socket));
    };
    let mut agent = Asking { stream: &stream };
    let ended = import_from(
        rt.alloc(),
        options,
        &patterns,
        &mut agent,
        &stream,
        &mut io::writer(rt),
        &mut ErrorWriter { rt },
    );
    match ended {
        Ok(()) => Ok(()),
        Err(fault) => Err(fault),
    }
}

/// Asks an agent for the principals of its KDC, writes the stanzas of those that are the service's by the patterns, and
/// then a line for each of the others and one with both numbers to `left`. If the answer can't be read, or has a fault,
/// nothing is written. If no principal is imported, that is a fault once the lines are written.
pub fn import_from<'a, S: Write, A: Read + Drop, W: Write, E: Write>(
    alloc: Global,
    options: KdcOptions<'a>,
    patterns: &NamePatterns,
    agent: &mut S,
    answers: A,
    writer: &mut W,
    left: &mut E,
) -> Result<(), KeysFault<'a>>
    ensures asked { OnOk result (Appends (S.contents agent.old) (S.contents agent.new) (codes "list keys\n")) }
    ensures written { OnOk result ((bytes : List ℕ) × IsHeard (A.remaining answers) bytes
        × ImportsKdc options.entry patterns.now bytes
        (W.contents writer.old) (W.contents writer.new) (E.contents left.old) (E.contents left.new)) }
    ensures fault { IfErr result (λ fault. IsUnheard options.entry.socket.now fault
        ⊎ (((bytes : List ℕ) × IsHeard (A.remaining answers) bytes
        × IsOfList options.entry patterns.now bytes fault) ⊎ IsLate fault)) }
    ensures unchanged { IfErr result (λ fault. IsEarly fault → (writer.new ≡ writer.old) × (left.new ≡ left.old)) }
{
    ask(alloc, options.socket, agent)?;
    let bytes = read_answer(alloc, options.socket, answers)?;
    let import = imported(alloc, options, patterns, bytes.as_slice())?;
    match write_import(alloc, options.socket, &import, writer, left) {
        Ok(()) => Ok(()),
        Err(fault) => Err(fault),
    }
}

// What is imported of an answer.
fn imported<'a>(
    alloc: Global,
    options: KdcOptions<'a>,
    patterns: &NamePatterns,
    bytes: &[u8],
) -> Result<KdcImport, KeysFault<'a>>
    ensures value { IfOk result (λ import. Heard options.entry patterns.now bytes.now (choice_of import)) }
    ensures fits { IfOk result (λ import. principals_fit import.principals.items ≡ true) }
    ensures fault { IfErr result (IsOfList options.entry patterns.now bytes.now) }
{
    let listed = read_list(alloc, options.socket, bytes)?;
    match chosen(alloc, patterns, options.iterations, listed.as_slice()) {
        Ok(import) => Ok(import),
        Err(_) => Err(KeysFault::Memory),
    }
}

// The principals that an answer lists.
fn read_list<'a>(alloc: Global, socket: &'a str, bytes: &[u8]) -> Result<Vec<Listed>, KeysFault<'a>>
    ensures value { IfOk result (λ listed. answer_listing bytes.now ≡ Ok listed.items) }
    ensures distinct { IfOk result (λ listed.
        are_distinct is_same_name (names_in listed.items) ≡ true) }
    ensures fault { IfErr result (IsListed socket.entry.now bytes.now) }
{
    if bytes.len() as u64 > ANSWER {
        return Err(KeysFault::Kdc(socket, ListFault::TooLong));
    }
    match listing_of(alloc, bytes) {
        Ok(listed) => Ok(listed),
        Err(ListFault::Memory) => Err(KeysFault::Memory),
        Err(fault) => Err(KeysFault::Kdc(socket, fault)),
    }
}

// Writes what is imported, and the lines about the others.
fn write_import<'a, W: Write, E: Write>(
    alloc: Global,
    socket: &'a str,
    import: &KdcImport,
    writer: &mut W,
    left: &mut E,
) -> Result<(), KeysFault<'a>>
    ensures written { OnOk result (AppendsRows (W.contents writer.old) (W.contents writer.new) []
        import.now.principals.items) }
    ensures told { OnOk result (Appends (E.contents left.old) (E.contents left.new)
        (told socket.entry.now (choice_of import.now))) }
    ensures fault { IfErr result (λ fault. IsNone socket.entry.now import.now fault ⊎ IsLate fault) }
    ensures unchanged { IfErr result (λ fault. IsEarly fault → (writer.new ≡ writer.old) × (left.new ≡ left.old)) }
{
    let text = stanzas(alloc, &[], import.principals.as_slice())?;
    let Ok(lines) = told_of(alloc, socket, import) else {
        return Err(KeysFault::Memory);
    };
    write_text(text.as_bytes(), writer)?;
    write_text(lines.as_slice(), left)?;
    if import.principals.is_empty() {
        return Err(KeysFault::NoPrincipal(socket));
    }
    Ok(())
}

// The patterns of a configuration's file; those that include each name of one component if none is given.
fn patterns_of<'a, R: Files + AllocGlobal>(
    rt: &R,
    file: Option<&'a str>,
) -> Result<NamePatterns, KeysFault<'a>>
    ensures fault { IfErr result (IsOfConfig (option_map (λ f. f.now) file.entry)) }
{
    let Some(file) = file else {
        return match NamePatterns::of_one_component(rt.alloc()) {
            Ok(patterns) => Ok(patterns),
            Err(_) => Err(KeysFault::Memory),
        };
    };
    let bytes = read_file(rt, file)?;
    read_patterns(rt.alloc(), file, bytes.as_slice())
}

// The patterns that the bytes of a configuration's file set.
fn read_patterns<'a>(
    alloc: Global,
    file: &'a str,
    bytes: &[u8],
) -> Result<NamePatterns, KeysFault<'a>>
    ensures value { IfOk result (λ patterns. patterns_in bytes.now ≡ Ok patterns) }
    ensures fault { IfErr result (IsOfPatterns file.entry.now bytes.now) }
{
    match read_text(alloc, bytes) {
        Ok(patterns) => Ok(patterns),
        Err(ConfigError::Memory) => Err(KeysFault::Memory),
        Err(ConfigError::Fault(fault)) => Err(KeysFault::Patterns(file, fault)),
    }
}

fn read_text(alloc: Global, bytes: &[u8]) -> Result<NamePatterns, ConfigError>
    ensures value { UnlessMemory result (patterns_in bytes.now) }
{
    match str::from_utf8(bytes) {
        Ok(text) => read_kdc(alloc, text),
        Err(_) => Err(ConfigError::Fault(ConfigFault::not_toml())),
    }
}

// A connection to the agent that waits at most so long for each read and write.
fn connect<R: Net>(rt: &R, socket: &str) -> io::Result<UnixStream> {
    let stream = UnixStream::connect(rt, socket)?;
    let patience = Duration::from_secs(PATIENCE);
    stream.set_read_timeout(Some(patience))?;
    stream.set_write_timeout(Some(patience))?;
    Ok(stream)
}

/// What is said to the agent. Once it is flushed, nothing more is said, so that the agent ends the connection behind its
/// answer.
#[derive(Drop)]
struct Asking<'a> {
    stream: &'a UnixStream,
}

impl Write for Asking<'_> {
    fn write(&mut self, bytes: &[u8]) -> io::Result<usize> {
        let mut stream = self.stream;
        stream.write(bytes)
    }

    fn flush(&mut self) -> io::Result<()> {
        self.stream.shutdown(Shutdown::Write)
    }
}
