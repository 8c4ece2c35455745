//! The whole report of a table, written piece by piece.
ghost use Rattle.std.specs.Prelude.{◌≡◌, ◌++◌, IfOk, OnOk};
ghost use Rattle.std.specs.Io.KnownBytes.{Appends};
ghost use Rattle.chpw_report.specs.Reports.{end_of, report, told_of};

use crate::form::Form;
use crate::keys::put_keys;
use crate::lines::put_line;
use chpw_printing::put_number;
use chpw_rules::Name;
use chpw_table::Table;
use std::alloc::{AllocError, Global};
use std::io::Write;

/// Why a report ended early; a part of it may be written.
#[derive(Clone, Copy, Drop)]
pub enum ReportFault {
    /// A growth was refused.
    Memory,
    /// A write failed.
    Write,
}

/// Writes the report of a table's principals, in the order of their names, with one write for each; after the lines for
/// a person one with their number and that of the changes of a journal. `realm` is the principals'. It takes no more
/// memory than a principal's text.
#[tactic(auto, using(crate::proofs::ReportLemmas::reporting))]
pub fn write_report<W: Write>(
    alloc: Global,
    form: Form,
    realm: &[u8],
    table: &Table,
    changes: u64,
    writer: &mut W,
) -> Result<(), ReportFault>
    ensures written { OnOk result (Appends (W.contents writer.old) (W.contents writer.new)
        (report form realm.now table.now changes)) }
{
    let mut place = 0u32;
    while let Some(name) = table.name_at(place) {
        let text = principal_text(alloc, form, realm, table, name)?;
        put(writer, &text)?;
        // No memory holds more names than that.
        let Some(next) = place.checked_add(1) else {
            return Err(ReportFault::Memory);
        };
        place = next;
    }
    let text = end(alloc, form, place, changes)?;
    put(writer, &text)
}

// The text for the principal of this name.
fn principal_text(
    alloc: Global,
    form: Form,
    realm: &[u8],
    table: &Table,
    name: &Name,
) -> Result<Vec<u8>, AllocError>
    ensures value { IfOk result (λ text. text.items ≡ told_of form realm.now table.now name.now) }
{
    let mut text = Vec::new(alloc);
    match form {
        Form::Lines => {
            if let Some(shown) = table.lookup(name) {
                put_line(&mut text, name, &shown)?;
            }
        }
        Form::Keys => {
            if let Some(rows) = table.keys_of(name) {
                put_keys(&mut text, realm, name, rows)?;
            }
        }
    }
    Ok(text)
}

// The text after all principals, of which there are `principals`.
fn end(alloc: Global, form: Form, principals: u32, changes: u64) -> Result<Vec<u8>, AllocError>
    ensures value { IfOk result (λ text. text.items ≡ end_of form principals changes) }
{
    let mut text = Vec::new(alloc);
    match form {
        Form::Lines => {
            text.extend_from_slice(b"principals ")?;
            put_number(&mut text, u64::from(principals))?;
            text.extend_from_slice(b" changes ")?;
            put_number(&mut text, changes)?;
            text.push(b'\n')?;
        }
        Form::Keys => {}
    }
    Ok(text)
}

fn put<W: Write>(writer: &mut W, text: &[u8]) -> Result<(), ReportFault>
    ensures written { OnOk result (Appends (W.contents writer.old) (W.contents writer.new) text.now) }
{
    match writer.write_all(text) {
        Ok(()) => Ok(()),
        Err(_) => Err(ReportFault::Write),
    }
}

impl From<AllocError> for ReportFault {
    ghost use Rattle.std.specs.Prelude.{◌≡◌};
    ghost use Rattle.chpw_report.specs.declared.report.ReportFault.TheVariants.{Memory};

    ghost from_gives = { λ _ fault. fault ≡ Memory };

    fn from(_error: AllocError) -> ReportFault {
        ReportFault::Memory
    }
}
