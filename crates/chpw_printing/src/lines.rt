//! Lines of somebody else, as they are printed.
ghost use Rattle.std.specs.Prelude.{◌≡◌, ◌++◌, true, OnOk};
ghost use Rattle.chpw_printing.specs.Lines.{are_lines, is_plain_in_lines as is_plain_byte, lines_byte, lines_text};

use crate::quoting::put_escaped;
use std::alloc::AllocError;

/// Adds lines as they are printed: printable ASCII and the ends of lines stay as they are, every other byte is `\x` and
/// two hexadecimal digits. A `\` stays too: who wrote the lines may have escaped bytes already.
pub fn put_lines(text: &mut Vec<u8>, lines: &[u8]) -> Result<(), AllocError>
    ensures value { OnOk result (text.new.items ≡ text.old.items ++ lines_text lines.now) }
    ensures printed { OnOk result (are_lines (lines_text lines.now) ≡ true) }
{
    let mut others = lines;
    while let [byte, rest @ ..] = others {
        put_lines_byte(text, *byte)?;
        others = rest;
    }
    Ok(())
}

// A byte as it is, where it is printed or ends a line; else `\x` and two hexadecimal digits.
#[tactic(auto, using(crate::proofs::LinesLemmas::graphic_lines))]
fn put_lines_byte(text: &mut Vec<u8>, byte: u8) -> Result<(), AllocError>
    ensures value { OnOk result (text.new.items ≡ text.old.items ++ lines_byte byte) }
    ensures printed { are_lines (lines_byte byte) ≡ true }
{
    if is_plain_in_lines(byte) {
        return text.push(byte).map_err(|_| AllocError);
    }
    put_escaped(text, byte)
}

// Printable ASCII, with the space, and the end of a line.
fn is_plain_in_lines(byte: u8) -> bool
    ensures value { result ≡ is_plain_byte byte }
{
    matches!(byte, 0x20..=0x7e | b'\n')
}
