//! What a journal begins with: the record of its realm, or none.
ghost use Rattle.std.specs.Prelude.{◌≡◌, IfOk, IfSome, length, true};
ghost use Rattle.chpw_rules.specs.Limits.{is_in, realm_lengths};
ghost use Rattle.chpw_journal.specs.Headings.{begins_as_heading, realm_record};
ghost use Rattle.chpw_journal.specs.ReadHeadings.{IsHeadingRead, IsRealmRead};

use crate::reading::{MAX_READS, length_in};
use chpw_read_fully::{FillOutcome, fill, fill_vec};
use chpw_rules::Limits;
use std::alloc::{AllocError, Global};
use std::io::Read;

/// The kind of a realm's record: its first byte after its length.
const REALM_KIND: u8 = 7;

/// The lengths of realms' records, without the two bytes of the length: the kind, and 1 to 255 bytes.
const HEADING_LENGTHS: Limits = Limits { low: 2, high: 256 };

/// What a journal begins with.
#[derive(Drop)]
pub(crate) enum Heading {
    /// No realm's record. These bytes of what there is were read: three, or all.
    None(Vec<u8>),
    /// The record of this realm.
    Realm(Vec<u8>),
    /// A realm's record that isn't there whole; the journal ends within it.
    Torn,
    /// A read failed, or there were too many.
    CannotRead,
}

/// The record of a realm of 1 to 255 bytes, with which its journal begins: two bytes of the length, the kind 7, and the
/// realm.
pub fn heading_bytes(alloc: Global, realm: &[u8]) -> Result<Vec<u8>, AllocError>
    requires realm { is_in realm_lengths (length realm.now) ≡ true }
    ensures value { IfOk result (λ text. text.items ≡ realm_record realm.now) }
{
    let size = realm.len() as u16 + 1;
    let mut record = Vec::from_slice(alloc, &size.to_be_bytes())?;
    record.push(REALM_KIND)?;
    record.extend_from_slice(realm)?;
    Ok(record)
}

/// Whether what a reader has from the beginning of a journal on begins as a realm's record does; none if it can't be read.
pub fn is_headed<R: Read>(reader: &mut R) -> Option<bool>
    ensures value { IfSome result (λ is. IfSome (R.remaining reader.old) (λ text. is ≡ begins_as_heading text)) }
{
    let mut reads = MAX_READS;
    let mut head = [0; 3];
    match fill(reader, &mut head, &mut reads) {
        FillOutcome::Whole => Some(begins_as_heading(&head)),
        FillOutcome::Short(_) => Some(false),
        FillOutcome::Fault(_) => None,
    }
}

/// Reads what a journal begins with, from its beginning on.
pub(crate) fn read_heading<R: Read>(alloc: Global, reader: &mut R) -> Result<Heading, AllocError>
    ensures heading { IfOk result (λ heading. IsHeadingRead heading (R.remaining reader.old) (R.remaining reader.new)) }
{
    let mut reads = MAX_READS;
    let mut head = vec![in alloc; 0; 3]?;
    match fill_vec(reader, &mut head, &mut reads) {
        FillOutcome::Whole => read_realm(alloc, reader, head, &mut reads),
        FillOutcome::Short(count) => {
            head.truncate(count);
            Ok(Heading::None(head))
        }
        FillOutcome::Fault(_) => Ok(Heading::CannotRead),
    }
}

// Reads what follows the first three bytes, if they begin a realm's record.
fn read_realm<R: Read>(
    alloc: Global,
    reader: &mut R,
    head: Vec<u8>,
    reads: &mut u64,
) -> Result<Heading, AllocError>
    requires three { length head.items ≡ 3 }
    ensures heading { IfOk result (λ heading. IsRealmRead head.items heading (R.remaining reader.old) (R.remaining reader.new)) }
{
    if !begins_as_heading(&head) {
        return Ok(Heading::None(head));
    }
    let length = length_in(&head[..2]);
    let mut realm = vec![in alloc; 0; length - 1]?;
    match fill_vec(reader, &mut realm, reads) {
        FillOutcome::Whole => Ok(Heading::Realm(realm)),
        FillOutcome::Short(_) => Ok(Heading::Torn),
        FillOutcome::Fault(_) => Ok(Heading::CannotRead),
    }
}

// Whether a text begins as a realm's record does, as far as its first three bytes say.
fn begins_as_heading(text: &[u8]) -> bool
    ensures value { result ≡ begins_as_heading text.now }
{
    let [high, low, kind, ..] = text else {
        return false;
    };
    let length = u16::from_be_bytes([*high, *low]);
    *kind == REALM_KIND && HEADING_LENGTHS.allow(usize::from(length))
}
