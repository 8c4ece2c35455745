//! The texts of a configuration.
ghost use Rattle.std.specs.Prelude.{◌≡◌, ◌≢◌, IfOk, IfErr, string_bytes};
ghost use Rattle.std.specs.Str.{is_utf8};
ghost use Rattle.chpw_config_text.specs.Tables.{target_text, text_of};
ghost use Rattle.chpw_config_text.specs.Writable.{JustWritable, is_writable_name, is_writable_part, is_writable_target};

use crate::fault::WriteFault;
use chpw_rules::Name;
use std::alloc::Global;

/// The bytes as text, if they are UTF-8.
pub fn text(bytes: &[u8]) -> Result<&str, WriteFault>
    ensures value { IfOk result (λ text. text.now ≡ bytes.now) }
    ensures just { JustWritable result (is_utf8 bytes.now) }
    ensures no_memory { IfErr result (λ e. e ≢ WriteFault.Memory) }
{
    match str::from_utf8(bytes) {
        Ok(text) => Ok(text),
        Err(_) => Err(WriteFault::Unwritable),
    }
}

// A component of a name.
fn part_text(part: &[u8]) -> Result<&str, WriteFault>
    ensures value { IfOk result (λ text. text.now ≡ part.now) }
    ensures just { JustWritable result (is_writable_part part.now) }
    ensures no_memory { IfErr result (λ e. e ≢ WriteFault.Memory) }
{
    let text = text(part)?;
    if part.contains(&b'/') {
        return Err(WriteFault::Unwritable);
    }
    Ok(text)
}

/// Whether a file can express the name: each component is UTF-8 and has no `/`.
pub fn can_be_written(name: &Name) -> bool
    ensures value { result ≡ is_writable_name name.now }
{
    let parts = name.parts.as_slice();
    parts
        .iter()
        .all(|part| part_can_be_written(part.as_slice()))
}

// Whether a file can express a component.
fn part_can_be_written(part: &[u8]) -> bool
    ensures value { result ≡ is_writable_part part.now }
{
    is_text(part) && !part.contains(&b'/')
}

fn is_text(bytes: &[u8]) -> bool
    ensures value { result ≡ is_utf8 bytes.now }
{
    match str::from_utf8(bytes) {
        Ok(_) => true,
        Err(_) => false,
    }
}

/// A name's components with `/` between them.
pub fn name_text(alloc: Global, name: &Name) -> Result<String, WriteFault>
    ensures value { IfOk result (λ text. string_bytes text ≡ text_of name.now) }
    ensures just { JustWritable result (is_writable_name name.now) }
{
    let mut text = String::new(alloc);
    for (place, part) in name.parts.as_slice().iter().enumerate() {
        if place > 0 {
            text.push_str("/")?;
        }
        text.push_str(part_text(part.as_slice())?)?;
    }
    Ok(text)
}

/// The name of a rule's target, or `*` for everyone.
pub fn target_text(alloc: Global, target: &Option<Name>) -> Result<String, WriteFault>
    ensures value { IfOk result (λ text. string_bytes text ≡ target_text target.now) }
    ensures just { JustWritable result (is_writable_target target.now) }
{
    let Some(name) = target else {
        return Ok(String::from_str(alloc, "*")?);
    };
    let text = name_text(alloc, name)?;
    if text.as_str() == "*" {
        return Err(WriteFault::Unwritable);
    }
    Ok(text)
}
