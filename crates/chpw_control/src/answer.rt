//! The text of an answer.
ghost use Rattle.std.specs.Prelude.{◌≡◌, ◌++◌, ◌∷◌, [], OnOk};
ghost use Rattle.chpw_printing.specs.Quoting.{words_text};
ghost use Rattle.chpw_control.specs.Answers.{ended_ok as ended_ok_of, error_line, lines_text, ok_line};

use chpw_printing::put_words;
use std::alloc::AllocError;

/// Adds a line. A byte that isn't printable ASCII is written as `\x` and two hexadecimal digits, and so is a `\`.
pub fn put_line(text: &mut Vec<u8>, words: &[u8]) -> Result<(), AllocError>
    ensures value { OnOk result (text.new.items
        ≡ text.old.items ++ lines_text (words_text words.now ∷ [])) }
{
    put_words(text, words)?;
    text.push(b'\n')?;
    Ok(())
}

/// Adds the last line of an answer to a command that was carried out.
pub fn put_ok(text: &mut Vec<u8>) -> Result<(), AllocError>
    ensures value { OnOk result (text.new.items ≡ text.old.items ++ lines_text (ok_line ∷ [])) }
{
    text.extend_from_slice(b"ok\n")
}

/// Adds the last line of an answer to a command that wasn't: the reason. The words are printed as in `put_line`.
pub fn put_error(text: &mut Vec<u8>, words: &[u8]) -> Result<(), AllocError>
    ensures value { OnOk result (text.new.items
        ≡ text.old.items ++ lines_text (error_line words.now ∷ [])) }
{
    text.extend_from_slice(b"error: ")?;
    put_line(text, words)
}

/// Whether the whole answer's last line is `ok`: the command was carried out. An answer that was cut off doesn't end
/// so.
pub fn ended_ok(text: &[u8]) -> bool
    ensures value { result ≡ ended_ok_of text.now }
{
    text == b"ok\n".as_slice() || text.ends_with(b"\nok\n")
}
