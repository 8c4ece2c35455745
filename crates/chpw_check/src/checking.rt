//! The check of a configuration.
ghost use Rattle.std.specs.Prelude.{◌≡◌, Err, IfOk, IfErr, OnOk, is_some, string_bytes, if◌then◌else◌};
ghost use Rattle.std.specs.Io.KnownBytes.{Appends};
ghost use Rattle.chpw_config.specs.Faults.{UnlessMemory};
ghost use Rattle.chpw_check.specs.Checked.{checked, whole_file, line_of_check, lines_about, status_of, good_line, fault_line, warning_lines, IsCheckFault};
ghost use Rattle.chpw_commands.specs.declared.drill.DrillFault.TheVariants.{Memory};

use chpw_commands::DrillFault;
use chpw_config::{ConfigError, ConfigFault, explain, read_config, read_kdc};
use chpw_rules::Config;
use chpw_warnings::{config_warnings, put_file_warnings};
use std::alloc::{AllocError, Global};
use std::io::Write;
use std::str;

/// The status of a configuration without a fault.
const GOOD: u8 = 0;

/// The status of one with a fault.
const FAULTY: u8 = 1;

/// Writes one line about the text of a configuration, and returns the status: 0, with the numbers of principals, rules
/// and service keys; or 1, with the first fault. A text that isn't UTF-8 isn't TOML.
///
/// `Memory` if a growth was refused, and nothing is written then; `Write` if the write failed.
pub fn run_check<W: Write>(alloc: Global, text: &[u8], writer: &mut W) -> Result<u8, DrillFault>
    ensures status { IfOk result (λ status. status ≡ status_of (checked text.now)) }
    ensures written { IfOk result (λ _.
        Appends (W.contents writer.old) (W.contents writer.new) (line_of_check (checked text.now))) }
    ensures faults { IfErr result IsCheckFault }
    ensures unchanged { result ≡ Err Memory → writer.new ≡ writer.old }
{
    let Ok((line, status)) = check_line(alloc, text) else {
        return Err(DrillFault::Memory);
    };
    match writer.write_all(line.as_bytes()) {
        Ok(()) => Ok(status),
        Err(_) => Err(DrillFault::Write),
    }
}

/// What is wrong with the text of a configuration, in words; none if nothing is.
pub fn explain_check(alloc: Global, text: &[u8]) -> Result<Option<String>, AllocError>
    ensures status { IfOk result (λ words.
        status_of (checked text.now) ≡ (if is_some words then 1 else 0)) }
{
    match read_text(alloc, text) {
        Ok(_) => Ok(None),
        Err(ConfigError::Memory) => Err(AllocError),
        Err(ConfigError::Fault(fault)) => Ok(Some(in_words(alloc, text, fault)?)),
    }
}

/// Writes a line for each warning about the text of a configuration, behind the name of its file; none if it has a fault.
///
/// `Memory` if a growth was refused, and nothing is written then; `Write` if the write failed.
pub fn warn_check<W: Write>(
    alloc: Global,
    file: &str,
    text: &[u8],
    writer: &mut W,
) -> Result<(), DrillFault>
    ensures written { OnOk result
        (Appends (W.contents writer.old) (W.contents writer.new) (warning_lines file.now text.now)) }
    ensures faults { IfErr result IsCheckFault }
    ensures unchanged { result ≡ Err Memory → writer.new ≡ writer.old }
{
    let Ok(lines) = warning_lines(alloc, file, text) else {
        return Err(DrillFault::Memory);
    };
    if writer.write_all(lines.as_slice()).is_err() {
        return Err(DrillFault::Write);
    }
    Ok(())
}

// The lines of the warnings about the bytes.
fn warning_lines(alloc: Global, file: &str, text: &[u8]) -> Result<Vec<u8>, AllocError>
    ensures value { IfOk result (λ lines. lines.items ≡ warning_lines file.now text.now) }
{
    match str::from_utf8(text) {
        Ok(text) => lines_about(alloc, file, text),
        Err(_) => Ok(Vec::new(alloc)),
    }
}

// The lines of the warnings about the text.
fn lines_about(alloc: Global, file: &str, text: &str) -> Result<Vec<u8>, AllocError>
    ensures value { IfOk result (λ lines. lines.items ≡ lines_about file.now text.now (whole_file text.now)) }
{
    let mut lines = Vec::new(alloc);
    match read_whole(alloc, text) {
        Err(ConfigError::Memory) => return Err(AllocError),
        Err(ConfigError::Fault(_)) => {}
        Ok(config) => {
            let warnings = config_warnings(alloc, text, &config)?;
            put_file_warnings(&mut lines, file, warnings.as_slice())?;
        }
    }
    Ok(lines)
}

fn in_words(alloc: Global, text: &[u8], fault: ConfigFault) -> Result<String, AllocError> {
    match str::from_utf8(text) {
        Ok(text) => explain(alloc, text, fault),
        Err(error) => {
            let before = error.valid_up_to();
            format!(in alloc; "not UTF-8 after {before} bytes")
        }
    }
}

// The line about the text, and the status.
fn check_line(alloc: Global, text: &[u8]) -> Result<(String, u8), AllocError>
    ensures line { IfOk result (λ r. string_bytes r.0 ≡ line_of_check (checked text.now)) }
    ensures status { IfOk result (λ r. r.1 ≡ status_of (checked text.now)) }
{
    match read_text(alloc, text) {
        Err(ConfigError::Memory) => Err(AllocError),
        Err(ConfigError::Fault(fault)) => Ok((faulty(alloc, fault)?, FAULTY)),
        Ok(config) => Ok((good(alloc, &config)?, GOOD)),
    }
}

// The configuration that the bytes set, or their first fault.
fn read_text(alloc: Global, text: &[u8]) -> Result<Config, ConfigError>
    ensures value { UnlessMemory result (checked text.now) }
{
    match str::from_utf8(text) {
        Ok(text) => read_whole(alloc, text),
        Err(_) => Err(ConfigError::Fault(ConfigFault::not_toml())),
    }
}

// The configuration that the text sets, if its table `kdc` has no fault either.
fn read_whole(alloc: Global, text: &str) -> Result<Config, ConfigError>
    ensures value { UnlessMemory result (whole_file text.now) }
{
    let config = read_config(alloc, text)?;
    let _ = read_kdc(alloc, text)?;
    Ok(config)
}

// The line of a configuration without a fault.
fn good(alloc: Global, config: &Config) -> Result<String, AllocError>
    ensures value { IfOk result (λ line. string_bytes line ≡ good_line config.now) }
{
    let principals = config.principals.as_slice().len();
    let rules = config.rules.list.as_slice().len();
    let keys = config.service.as_slice().len();
    let mut line = String::from_str(alloc, "ok: principals ")?;
    line.push_str(principals.to_string(alloc)?.as_str())?;
    line.push_str(", rules ")?;
    line.push_str(rules.to_string(alloc)?.as_str())?;
    line.push_str(", service keys ")?;
    line.push_str(keys.to_string(alloc)?.as_str())?;
    line.push_str("\n")?;
    Ok(line)
}

// The line of a fault.
fn faulty(alloc: Global, fault: ConfigFault) -> Result<String, AllocError>
    ensures value { IfOk result (λ line. string_bytes line ≡ fault_line fault) }
{
    format!(in alloc; "{fault}\n")
}
