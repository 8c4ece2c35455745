//! The files that a service starts from.
ghost use Rattle.std.specs.Prelude.{◌≡◌, ◌≢◌, ◌≤◌, IfOk, IfErr, List, ℕ, Ok, length, true};
ghost use Rattle.std.specs.IoError.{error_kind};
ghost use Rattle.chpw_start.specs.declared.fault.ServeFault.TheVariants.{Memory};
ghost use Rattle.std.specs.Io.KnownBytes.{Consumes};
ghost use Rattle.chpw_rules.specs.Fitting.{config_fits};
ghost use Rattle.chpw_start.specs.Faults.{IsOfBytes, IsOfNames, IsOfSettings, IsUnread, Sets, SetsNames};

use crate::bounded::read_at_most;
use crate::fault::ServeFault;
use crate::line_output::{Kind, kind_of};
use chpw_config::{ConfigError, ConfigFault, read_config, read_kdc};
use chpw_rules::{Config, NamePatterns};
use std::alloc::Global;
use std::fs::{File, Files};
use std::io::{ErrorKind, Read};
use std::{io, str};

/// The most bytes of a configuration: 64 MiB.
pub const LONGEST_CONFIGURATION: usize = 67_108_864;

/// The settings in the configuration's file.
pub fn read_settings<'a, R: Files<File = File> + AllocGlobal>(
    rt: &R,
    path: &'a str,
) -> Result<Config, ServeFault<'a>>
    ensures fits { IfOk result (λ config. config_fits config ≡ true) }
    ensures value { IfOk result (λ config. (bytes : List ℕ) × Sets bytes (Ok config)) }
    ensures fault { IfErr result (IsOfSettings path.now) }
{
    let Configuration { config, text: _ } = configuration_of(rt, path)?;
    Ok(config)
}

/// A configuration, and the text that set it.
#[derive(Drop)]
pub struct Configuration {
    pub config: Config,
    pub text: Vec<u8>,
}

/// The configuration in a file, which is refused if it can't be read, and then for its first fault.
pub fn configuration_of<'a, R: Files<File = File> + AllocGlobal>(
    rt: &R,
    path: &'a str,
) -> Result<Configuration, ServeFault<'a>>
    ensures fits { IfOk result (λ c. config_fits c.config ≡ true) }
    ensures sets { IfOk result (λ c. Sets c.text.items (Ok c.config)) }
    ensures fault { IfErr result (IsOfSettings path.now) }
{
    let text = configuration_text(rt, path)?;
    let config = settings(rt.alloc(), &text)?;
    Ok(Configuration { config, text })
}

/// The text of the configuration in a file.
pub fn configuration_text<'a, R: Files<File = File> + AllocGlobal>(
    rt: &R,
    path: &'a str,
) -> Result<Vec<u8>, ServeFault<'a>>
    ensures few { IfOk result (λ bytes. length bytes.items ≤ LONGEST_CONFIGURATION) }
    ensures fault { IfErr result (IsUnread path.now) }
{
    match read_configuration(rt, path) {
        Ok(bytes) => Ok(bytes),
        Err(error) => Err(unread_fault(path, error)),
    }
}

/// The bytes of a configuration's file. What isn't a regular file can't be read, and neither can a file of more than
/// 64 MiB; also one that grows meanwhile is read no further than that.
pub fn read_configuration<R: Files<File = File> + AllocGlobal>(
    rt: &R,
    path: &str,
) -> io::Result<Vec<u8>>
    ensures few { IfOk result (λ bytes. length bytes.items ≤ LONGEST_CONFIGURATION) }
{
    let mut file = open_regular(rt, path)?;
    match read_at_most(rt.alloc(), &mut file, LONGEST_CONFIGURATION)? {
        Some(bytes) => Ok(bytes),
        None => Err(io::Error::from(ErrorKind::FileTooLarge)),
    }
}

/// An existing regular file, opened for reading, such as a journal. Anything else can't be read.
pub fn open_file<'a, R: Files<File = File>>(rt: &R, path: &'a str) -> Result<File, ServeFault<'a>>
    ensures fault { IfErr result (IsUnread path.now) }
{
    match open_regular(rt, path) {
        Ok(file) => Ok(file),
        Err(error) => Err(unread_fault(path, error)),
    }
}

// A regular file, opened for reading. A pipe would block its opener, so the kind is looked at before; and once more
// afterwards, since another file may have got the name meanwhile.
fn open_regular<R: Files<File = File>>(rt: &R, path: &str) -> io::Result<File> {
    if !matches!(kind_of(rt, path), Kind::File) {
        return Err(io::Error::from(ErrorKind::InvalidInput));
    }
    let file = File::open(rt, path)?;
    if file.metadata()?.is_file() {
        Ok(file)
    } else {
        Err(io::Error::from(ErrorKind::InvalidInput))
    }
}

/// The settings that a file's bytes set, or their first fault. A text that isn't UTF-8 isn't TOML.
pub fn settings<'a>(alloc: Global, bytes: &[u8]) -> Result<Config, ServeFault<'a>>
    ensures fits { IfOk result (λ config. config_fits config ≡ true) }
    ensures value { IfOk result (λ config. Sets bytes.now (Ok config)) }
    ensures fault { IfErr result (IsOfBytes bytes.now) }
{
    let Ok(text) = str::from_utf8(bytes) else {
        return Err(ServeFault::Config(ConfigFault::not_toml()));
    };
    match read_config(alloc, text) {
        Ok(config) => Ok(config),
        Err(ConfigError::Fault(fault)) => Err(ServeFault::Config(fault)),
        Err(ConfigError::Memory) => Err(ServeFault::Memory),
    }
}

/// Which of the KDC's names are the service's, as the table `kdc` of a configuration's bytes says, or the first fault of that
/// table.
pub fn kdc_names<'a>(alloc: Global, bytes: &[u8]) -> Result<NamePatterns, ServeFault<'a>>
    ensures value { IfOk result (λ patterns. SetsNames bytes.now (Ok patterns)) }
    ensures fault { IfErr result (IsOfNames bytes.now) }
{
    let Ok(text) = str::from_utf8(bytes) else {
        return Err(ServeFault::Config(ConfigFault::not_toml()));
    };
    match read_kdc(alloc, text) {
        Ok(patterns) => Ok(patterns),
        Err(ConfigError::Fault(fault)) => Err(ServeFault::Config(fault)),
        Err(ConfigError::Memory) => Err(ServeFault::Memory),
    }
}

/// The first 32 bytes of the seed's file; a shorter file can't be read.
pub fn read_seed<'a, R: Files>(rt: &R, path: &'a str) -> Result<[u8; 32], ServeFault<'a>>
    ensures fault { IfErr result (IsUnread path.now) }
{
    let read = match File::open(rt, path) {
        Ok(mut file) => first_32(&mut file),
        Err(error) => Err(error),
    };
    match read {
        Ok(seed) => Ok(seed),
        Err(error) => Err(unread_fault(path, error)),
    }
}

fn first_32<R: Read>(reader: &mut R) -> io::Result<[u8; 32]>
    ensures bytes { IfOk result (λ seed.
        Consumes (R.remaining reader.old) (R.remaining reader.new) seed) }
{
    let mut seed = [0; 32];
    reader.read_exact(&mut seed)?;
    Ok(seed)
}

/// The fault of a file that can't be read.
pub fn unread_fault(path: &str, error: io::Error) -> ServeFault<'_>
    ensures fault { IsUnread path.now result }
    ensures memory { error_kind error ≡ ErrorKind.OutOfMemory → result ≡ Memory }
    ensures other { error_kind error ≢ ErrorKind.OutOfMemory → result ≢ Memory }
{
    if error.kind() == ErrorKind::OutOfMemory {
        ServeFault::Memory
    } else {
        ServeFault::CannotRead(path)
    }
}
