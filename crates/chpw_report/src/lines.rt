//! A principal's line for a person.
ghost use Rattle.std.specs.Prelude.{◌≡◌, ◌++◌, OnOk};
ghost use Rattle.std.specs.List.{flat_map};
ghost use Rattle.chpw_printing.specs.Quoting.{number_text};
ghost use Rattle.chpw_report.specs.Reports.{shown_line};

use chpw_printing::{put_after_space, put_name, put_number};
use chpw_rules::Name;
use chpw_table::Lookup;
use std::alloc::AllocError;

/// Adds the line: `alice kvno 3 counts 4096 4096`.
pub(crate) fn put_line(text: &mut Vec<u8>, name: &Name, shown: &Lookup) -> Result<(), AllocError>
    ensures value { OnOk result (text.new.items ≡ text.old.items ++ shown_line name.now shown.now) }
{
    put_name(text, name)?;
    text.extend_from_slice(b" kvno ")?;
    put_number(text, u64::from(shown.kvno))?;
    text.extend_from_slice(b" counts")?;
    put_counts(text, shown.held.as_slice())?;
    text.push(b'\n')?;
    Ok(())
}

// Adds each count after a space.
fn put_counts(text: &mut Vec<u8>, counts: &[u32]) -> Result<(), AllocError>
    ensures value { OnOk result (text.new.items ≡ text.old.items ++ flat_map number_text counts.now) }
{
    let mut others = counts;
    while let [count, rest @ ..] = others {
        put_after_space(text, *count)?;
        others = rest;
    }
    Ok(())
}
