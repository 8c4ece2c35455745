//! The line that both imports end with.
ghost use Rattle.std.specs.Prelude.{◌≡◌, ◌++◌, OnOk};
ghost use Rattle.chpw_import.specs.Counts.{count_line};

use chpw_printing::put_number;
use std::alloc::AllocError;

/// Adds the line: `imported 7, not imported 3`.
pub(crate) fn put_counts(text: &mut Vec<u8>, imported: usize, left: usize) -> Result<(), AllocError>
    ensures value { OnOk result (text.new.items ≡ text.old.items ++ count_line imported left) }
{
    text.extend_from_slice(b"imported ")?;
    put_number(text, imported as u64)?;
    text.extend_from_slice(b", not imported ")?;
    put_number(text, left as u64)?;
    text.extend_from_slice(b"\n")
}
