//! Names of files.
ghost use Rattle.std.specs.Prelude.{◌≡◌, true, false, IfSome, IfNone, IfOk};
ghost use Rattle.chpw_control.specs.FileNames.{is_file_name};

use std::alloc::{AllocError, Global};
use std::marker::Model;
use std::str;

/// The name of a file: non-empty UTF-8 without NUL.
#[derive(Drop)]
pub struct FileName {
    text: String,
}

impl Model for FileName {
    ghost use Rattle.std.specs.Prelude.{◌≡◌, List, ℕ, true};
    ghost use Rattle.std.specs.String.{string_bytes};
    ghost use Rattle.chpw_control.specs.FileNames.{is_file_name};

    ghost Value = { List ℕ };

    ghost view = { λ name. string_bytes name.text };

    ghost invariant = { λ name. is_file_name (string_bytes name.text) ≡ true };
}

impl FileName {
    /// The file name with this text.
    pub fn of(alloc: Global, text: &str) -> Result<FileName, AllocError>
        requires legal { is_file_name text.now ≡ true }
        ensures value { IfOk result (λ name. name ≡ text.now) }
    {
        let text = String::from_str(alloc, text)?;
        Ok(FileName { text })
    }

    /// The name as text.
    pub fn as_str(&self) -> &str
        ensures value { result.now ≡ self.now }
        ensures legal { is_file_name self.now ≡ true }
    {
        self.text.as_str()
    }
}

/// These bytes as text, if a file can have that name.
pub(crate) fn text_of(name: &[u8]) -> Option<&str>
    ensures some { IfSome result (λ text. text.now ≡ name.now) }
    ensures legal { IfSome result (λ _. is_file_name name.now ≡ true) }
    ensures none { IfNone result (is_file_name name.now ≡ false) }
{
    if name.is_empty() || name.contains(&0) {
        return None;
    }
    match str::from_utf8(name) {
        Ok(text) => Some(text),
        Err(_) => None,
    }
}
