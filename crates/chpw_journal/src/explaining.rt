//! What a journal says where restoring it ends: whose record that is, and what was wanted of it.
ghost use Rattle.std.specs.Prelude.{◌≡◌, IfOk, IfSome, Option, List, ℕ, false};
ghost use Rattle.std.specs.Io.KnownBytes.{Consumes};
ghost use Rattle.std.specs.Option.{option_copied};
ghost use Rattle.chpw_record.specs.declared.record.Record.TheVariants as record_of;
ghost use Rattle.chpw_journal.specs.Explaining.{is_of_fault, number_of, wanted_after, wanted_of, wanted_without};
ghost use Rattle.chpw_journal.specs.Explaining.{IsExplained, IsExplainedBehind, IsToldIn, IsToldOf, Tells};
ghost use Rattle.chpw_journal.specs.Headings.{begins_as_heading, realm_record};

use crate::compact::newest_version;
use crate::fault::RestoreFault;
use crate::heading::{Heading, read_heading};
use crate::reading::{MAX_READS, Next, next_record};
use crate::restoring::Restored;
use chpw_record::{KeyKind, KeyRow, PrincipalKey, Record};
use chpw_rules::Name;
use chpw_table::Table;
use std::alloc::{AllocError, Global};
use std::io::{BufReader, Read};

/// What was wanted of a record, in place of what it is.
#[derive(Clone, Copy, Drop)]
pub enum Expectation {
    /// This version: the one after its principal's newest.
    Version(u64),
    /// A version above this one, its principal's newest.
    Above(u32),
    /// A principal that is held.
    Principal,
    /// Fewer principals than there are.
    Room,
}

/// A record that isn't replayed.
#[derive(Drop)]
pub struct RefusedRecord {
    /// Its principal and its version.
    pub name: Name,
    pub kvno: u32,
    pub wanted: Expectation,
}

/// What a journal says at its first fault.
#[derive(Drop)]
pub enum Explanation {
    /// The record of this number isn't replayed.
    Record(u64, RefusedRecord),
    /// It begins with the record of the first realm, and the table is of the second.
    Realm(Vec<u8>, Vec<u8>),
}

/// What the whole journal in a file, which is at its beginning, says at the fault that restoring this table from it came to:
/// the record of the fault's number, with what is held of its principal once all before it are replayed; or both realms. None
/// of another fault, if the file can't be read so far, or if it has changed and has no such fault there.
pub fn explain_file<F: Read + Drop>(
    alloc: Global,
    table: Table,
    file: F,
    fault: RestoreFault,
) -> Result<Option<Explanation>, AllocError>
    ensures told { IfOk result (λ found. IfSome found (IsExplained table (F.remaining file) fault)) }
{
    let Ok(mut reader) = BufReader::new(alloc, file) else {
        return Err(AllocError);
    };
    explain_whole(alloc, table, &mut reader, fault)
}

// The same, of a reader of a whole journal.
fn explain_whole<R: Read>(
    alloc: Global,
    table: Table,
    reader: &mut R,
    fault: RestoreFault,
) -> Result<Option<Explanation>, AllocError>
    ensures told { IfOk result (λ found. IfSome found (IsExplained table (R.remaining reader.old) fault)) }
{
    match read_heading(alloc, reader)? {
        Heading::None(head) => explain_unnamed(alloc, table, &head, reader, fault),
        Heading::Realm(realm) => explain_named(alloc, table, realm, reader, fault),
        Heading::Torn => Ok(None),
        Heading::CannotRead => Ok(None),
    }
}

// The same, of a journal without a realm's record, of which these bytes were read.
fn explain_unnamed<R: Read>(
    alloc: Global,
    table: Table,
    head: &[u8],
    reader: &mut R,
    fault: RestoreFault,
) -> Result<Option<Explanation>, AllocError>
    ensures told { IfOk result (λ found. IfSome found (λ e. (before : Option (List ℕ)) → Consumes before (R.remaining reader.old) head.now
        → IfSome before (λ text. begins_as_heading text ≡ false) → IsExplained table before fault e)) }
{
    let mut whole = head.chain(reader);
    explain_after(alloc, table, &mut whole, fault)
}

// The same, of what follows the record of this realm.
fn explain_named<R: Read>(
    alloc: Global,
    table: Table,
    realm: Vec<u8>,
    reader: &mut R,
    fault: RestoreFault,
) -> Result<Option<Explanation>, AllocError>
    ensures told { IfOk result (λ found. IfSome found (λ e. (before : Option (List ℕ))
        → Consumes before (R.remaining reader.old) (realm_record realm.items) → IsExplained table before fault e)) }
{
    if realm.as_slice() == table.realm() {
        return explain_after(alloc, table, reader, fault);
    }
    match fault {
        RestoreFault::OtherRealm => {
            let held = Vec::from_slice(alloc, table.realm())?;
            Ok(Some(Explanation::Realm(realm, held)))
        }
        _ => Ok(None),
    }
}

// The same, of what follows the heading.
fn explain_after<R: Read>(
    alloc: Global,
    table: Table,
    reader: &mut R,
    fault: RestoreFault,
) -> Result<Option<Explanation>, AllocError>
    ensures told { IfOk result (λ found. IfSome found (IsExplainedBehind table (R.remaining reader.old) fault)) }
{
    let Some(number) = number_of(fault) else {
        return Ok(None);
    };
    let Some(refused) = record_numbered(alloc, table, reader, number)? else {
        return Ok(None);
    };
    if is_of_fault(fault, refused.wanted) {
        Ok(Some(Explanation::Record(number, refused)))
    } else {
        Ok(None)
    }
}

// The number of the record that a fault names, if more can be told of it.
fn number_of(fault: RestoreFault) -> Option<u64>
    ensures value { result ≡ number_of fault }
{
    match fault {
        RestoreFault::WrongVersion(number) => Some(number),
        RestoreFault::UnknownPrincipal(number) => Some(number),
        RestoreFault::TooMany(number) => Some(number),
        RestoreFault::BadRecord(_) => None,
        RestoreFault::OtherRealm | RestoreFault::CannotRead | RestoreFault::Memory => None,
    }
}

// Whether this is wanted at such a fault.
fn is_of_fault(fault: RestoreFault, wanted: Expectation) -> bool
    ensures value { result ≡ is_of_fault fault wanted }
{
    match wanted {
        Expectation::Version(_) | Expectation::Above(_) => matches!(
            fault,
            RestoreFault::WrongVersion(_)
        ),
        Expectation::Principal => matches!(fault, RestoreFault::UnknownPrincipal(_)),
        Expectation::Room => matches!(fault, RestoreFault::TooMany(_)),
    }
}

// The record of this number of what a reader has after a heading, with what is held once all before it are replayed.
fn record_numbered<R: Read>(
    alloc: Global,
    table: Table,
    reader: &mut R,
    number: u64,
) -> Result<Option<RefusedRecord>, AllocError>
    ensures told { IfOk result (λ found. IfSome found (IsToldOf table (R.remaining reader.old) number)) }
{
    let mut restored = Restored {
        table,
        records: 0,
        kept: 0,
        torn: false,
    };
    let mut reads = MAX_READS;
    loop {
        match next_record(alloc, reader, &mut reads)? {
            Next::Record(body) => {
                if restored.records + 1 == number {
                    return record_in(alloc, &restored.table, body.as_slice());
                }
                match restored.take_record(alloc, body.as_slice()) {
                    Ok(()) => {}
                    Err(_) => return Ok(None),
                }
            }
            _ => return Ok(None),
        }
    }
}

// The record that has this text after its length, with what is held in a table; none if it is no record of a principal.
fn record_in(alloc: Global, table: &Table, body: &[u8]) -> Result<Option<RefusedRecord>, AllocError>
    ensures told { IfOk result (λ found. IfSome found (IsToldIn table.now.state body.now)) }
{
    match Record::read(alloc, body)? {
        Some(found) => Ok(told_record(table, found)),
        None => Ok(None),
    }
}

fn told_record(table: &Table, found: Record) -> Option<RefusedRecord>
    ensures told { IfSome result (Tells table.now.state found) }
{
    match found {
        Record::Key(kind, change) => told_key(table, kind, change),
        Record::Raise(_) => None,
    }
}

fn told_key(table: &Table, kind: KeyKind, change: PrincipalKey) -> Option<RefusedRecord>
    ensures told { IfSome result (Tells table.now.state (record_of.Key kind change)) }
{
    let PrincipalKey { name, key } = change;
    let wanted = wanted_of(kind, table.keys_of(&name))?;
    Some(RefusedRecord {
        name,
        kvno: key.kvno,
        wanted,
    })
}

// What is wanted of a record of this kind whose principal has these keys; none if any would do.
fn wanted_of(kind: KeyKind, held: Option<&[KeyRow]>) -> Option<Expectation>
    ensures value { result ≡ wanted_of kind (option_copied held.entry) }
{
    match held {
        None => Some(wanted_without(kind)),
        Some(keys) => wanted_after(kind, newest_version(keys)),
    }
}

// What is wanted of one whose principal isn't held.
fn wanted_without(kind: KeyKind) -> Expectation
    ensures value { result ≡ wanted_without kind }
{
    match kind {
        KeyKind::Adopt => Expectation::Room,
        KeyKind::Change | KeyKind::Base | KeyKind::Lift | KeyKind::Remove => Expectation::Principal,
    }
}

// What is wanted of one whose principal has this newest version.
fn wanted_after(kind: KeyKind, newest: u32) -> Option<Expectation>
    ensures value { result ≡ wanted_after kind newest }
{
    match kind {
        KeyKind::Change => Some(Expectation::Version(u64::from(newest) + 1)),
        KeyKind::Adopt | KeyKind::Lift => Some(Expectation::Above(newest)),
        KeyKind::Base | KeyKind::Remove => None,
    }
}
