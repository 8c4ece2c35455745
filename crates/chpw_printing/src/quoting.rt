//! Names, texts and bytes as they are printed.
ghost use Rattle.std.specs.Prelude.{◌≡◌, ◌++◌, true, OnOk};
ghost use Rattle.hex.specs.Hex.{encode_lower};
ghost use Rattle.chpw_printing.specs.Quoting.{are_graphic, are_printed, is_field, is_plain as is_plain_byte};
ghost use Rattle.chpw_printing.specs.Quoting.{is_plain_in_words as is_plain_byte_in_words, byte_text, escaped};
ghost use Rattle.chpw_printing.specs.Quoting.{quoted, name_text, principal_text, words_byte, words_text};

use chpw_rules::Name;
use std::alloc::AllocError;

/// Puts a principal at the end as it is printed: its name, `@` and its realm.
#[tactic(auto, using(crate::proofs::QuotingLemmas::principal_field))]
pub fn put_principal(text: &mut Vec<u8>, realm: &[u8], name: &Name) -> Result<(), AllocError>
    ensures value { OnOk result (text.new.items ≡ text.old.items ++ principal_text realm.now name.now) }
    ensures field { OnOk result (is_field (principal_text realm.now name.now) ≡ true) }
{
    put_name(text, name)?;
    text.push(b'@')?;
    put_quoted(text, realm)
}

/// Adds a name as it is printed: its components with `/` between them.
pub fn put_name(text: &mut Vec<u8>, name: &Name) -> Result<(), AllocError>
    ensures value { OnOk result (text.new.items ≡ text.old.items ++ name_text name.now) }
    ensures graphic { OnOk result (are_graphic (name_text name.now) ≡ true) }
{
    let mut parts = name.parts.as_slice();
    while let [part, rest @ ..] = parts {
        put_quoted(text, part.as_slice())?;
        if !rest.is_empty() {
            text.push(b'/')?;
        }
        parts = rest;
    }
    Ok(())
}

/// Adds a name's bytes as they are printed.
pub fn put_quoted(text: &mut Vec<u8>, bytes: &[u8]) -> Result<(), AllocError>
    ensures value { OnOk result (text.new.items ≡ text.old.items ++ quoted bytes.now) }
    ensures graphic { OnOk result (are_graphic (quoted bytes.now) ≡ true) }
{
    let mut others = bytes;
    while let [byte, rest @ ..] = others {
        put_byte(text, *byte)?;
        others = rest;
    }
    Ok(())
}

/// Adds a text's bytes as they are printed; spaces stay.
pub fn put_words(text: &mut Vec<u8>, words: &[u8]) -> Result<(), AllocError>
    ensures value { OnOk result (text.new.items ≡ text.old.items ++ words_text words.now) }
    ensures printed { OnOk result (are_printed (words_text words.now) ≡ true) }
{
    let mut others = words;
    while let [byte, rest @ ..] = others {
        put_words_byte(text, *byte)?;
        others = rest;
    }
    Ok(())
}

// A name's byte unchanged if it is plain; otherwise `\x` and two hexadecimal digits.
fn put_byte(text: &mut Vec<u8>, byte: u8) -> Result<(), AllocError>
    ensures value { OnOk result (text.new.items ≡ text.old.items ++ byte_text byte) }
    ensures graphic { are_graphic (byte_text byte) ≡ true }
{
    if is_plain(byte) {
        return text.push(byte).map_err(|_| AllocError);
    }
    put_escaped(text, byte)
}

// A text's byte as it is, where it is printed and no `\`; else `\x` and two hexadecimal digits.
#[tactic(auto, using(crate::proofs::QuotingLemmas::graphic_printed))]
fn put_words_byte(text: &mut Vec<u8>, byte: u8) -> Result<(), AllocError>
    ensures value { OnOk result (text.new.items ≡ text.old.items ++ words_byte byte) }
    ensures printed { are_printed (words_byte byte) ≡ true }
{
    if is_plain_in_words(byte) {
        return text.push(byte).map_err(|_| AllocError);
    }
    put_escaped(text, byte)
}

// A byte as `\x` and two hexadecimal digits.
pub(crate) fn put_escaped(text: &mut Vec<u8>, byte: u8) -> Result<(), AllocError>
    ensures value { OnOk result (text.new.items ≡ text.old.items ++ escaped byte) }
    ensures graphic { are_graphic (escaped byte) ≡ true }
{
    text.extend_from_slice(b"\\x")?;
    put_hex(text, &[byte])
}

// Printable ASCII except the space, `/`, `@` and `\`.
fn is_plain(byte: u8) -> bool
    ensures value { result ≡ is_plain_byte byte }
{
    matches!(byte, 0x21..=0x2e | 0x30..=0x3f | 0x41..=0x5b | 0x5d..=0x7e)
}

// Printable ASCII, with the space, except `\`.
fn is_plain_in_words(byte: u8) -> bool
    ensures value { result ≡ is_plain_byte_in_words byte }
{
    matches!(byte, 0x20..=0x5b | 0x5d..=0x7e)
}

/// Adds bytes in lower-case hexadecimal digits.
pub fn put_hex(text: &mut Vec<u8>, bytes: &[u8]) -> Result<(), AllocError>
    ensures value { OnOk result (text.new.items ≡ text.old.items ++ encode_lower bytes.now) }
{
    let digits = hex::encode(*text.allocator(), bytes)?;
    text.extend_from_slice(digits.as_bytes())
}
