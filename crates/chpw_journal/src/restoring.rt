//! A table restored from its journal.
ghost use Rattle.std.specs.Prelude.{◌≡◌, ◌+◌, ◌-◌, ◌*◌, ◌≤◌, ◌<◌, ◌^◌, IfOk, IfErr, OnOk, OnErr, length};
ghost use Rattle.chpw_rules.specs.Limits.{is_in};
ghost use Rattle.chpw_table.specs.State.{State};
ghost use Rattle.chpw_table.specs.Agreement.{Agrees};
ghost use Rattle.chpw_record.specs.declared.record.Record.TheVariants as record_of;
ghost use Rattle.chpw_record.specs.Records.{ChangeFits, RecordFits};
ghost use Rattle.chpw_journal.specs.JournalText.{IsNextRecord, with_record};
ghost use Rattle.chpw_journal.specs.Restoring.{IsRestored, IsRefused};
ghost use Rattle.chpw_journal.specs.Taking.{TakesRecord, IsRecordFault, IsRecordRefused};

use crate::fault::RestoreFault;
use crate::reading::{MAX_READS, Next, next_record};
use chpw_record::{KeyKind, PrincipalKey, Record};
use chpw_table::{KeyFault, Table};
use std::alloc::Global;
use std::io::Read;

/// A table with a journal's records replayed.
#[derive(Drop)]
pub struct Restored {
    pub table: Table,
    /// How many there were.
    pub records: u64,
    /// Their bytes.
    pub kept: u64,
    /// Whether an incomplete record follows them.
    pub torn: bool,
}

/// Replays the records of a journal in a table: a change as the accepted request made it; the count of a raise if it is
/// greater than the table's; a base in place of its principal's keys; a key that was adopted in front of its principal's, or
/// as the first of one that joins; a lifted version as the newest key's; and a removed principal is held no more. What
/// follows the last complete record is torn; it is dropped and not checked, except its length.
///
/// The journal is read to its end, in at most 4,294,967,296 reads; an interrupted one is tried again. A fault in a
/// record that was read completely comes before that of a later read.
pub fn restore<R: Read>(
    alloc: Global,
    table: Table,
    reader: &mut R,
) -> Result<Restored, RestoreFault>
    ensures restored { IfOk result (λ r. IsRestored table (R.remaining reader.old) (R.remaining reader.new) r) }
    ensures first { IfErr result (λ fault. IsRefused table (R.remaining reader.old) (R.remaining reader.new) fault) }
    ensures short { IfOk result (λ r. r.kept ≤ 1092 * 2 ^ 32) }
{
    let mut restored = Restored {
        table,
        records: 0,
        kept: 0,
        torn: false,
    };
    let mut reads = MAX_READS;
    loop {
        match next_record(alloc, reader, &mut reads)? {
            Next::Record(body) => restored.take_record(alloc, body.as_slice())?,
            Next::BadLength => return Err(RestoreFault::BadRecord(restored.records + 1)),
            Next::CannotRead => return Err(RestoreFault::CannotRead),
            Next::Ended => return Ok(restored),
            Next::Torn => {
                restored.torn = true;
                return Ok(restored);
            }
        }
    }
}

impl Restored {
    /// Replays a record and counts it; `body` is the record's text after its length.
    pub(crate) fn take_record(&mut self, alloc: Global, body: &[u8]) -> Result<(), RestoreFault>
        requires few { self.old.records < 2 ^ 32 }
        requires short { self.old.kept ≤ 1092 * self.old.records }
        requires length { length body.now ≤ 1090 }
        ensures step { OnOk result (TakesRecord self.old self.new body.now) }
        ensures fault { IfErr result (λ fault. IsRecordFault self.old body.now fault) }
    {
        let number = self.records + 1;
        let Some(record) = Record::read(alloc, body)? else {
            return Err(RestoreFault::BadRecord(number));
        };
        match put_back(&mut self.table, record) {
            Ok(()) => {}
            Err(KeyFault::UnknownPrincipal) => return Err(RestoreFault::UnknownPrincipal(number)),
            Err(KeyFault::WrongVersion) => return Err(RestoreFault::WrongVersion(number)),
            Err(KeyFault::TooMany) => return Err(RestoreFault::TooMany(number)),
            Err(KeyFault::Memory) => return Err(RestoreFault::Memory),
        }
        self.records = number;
        self.kept += 2 + body.len() as u64;
        Ok(())
    }
}

// Replays a record. A raise is never refused.
fn put_back(table: &mut Table, taken: Record) -> Result<(), KeyFault>
    requires fits { RecordFits taken }
    ensures step { OnOk result ((s : State) → Agrees table.old.state s
        → IsNextRecord s taken × Agrees table.new.state (with_record taken s)) }
    ensures counts { (table.new.events ≡ table.old.events) × (table.new.seen ≡ table.old.seen)
        × (table.new.max_entries ≡ table.old.max_entries) }
    ensures first { IfErr result (λ fault. IsRecordRefused table.old taken fault) }
{
    match taken {
        Record::Key(kind, change) => put_key(table, kind, &change),
        Record::Raise(count) => {
            table.restore_count(count);
            Ok(())
        }
    }
}

// Replays the record of a key, by its kind.
fn put_key(table: &mut Table, kind: KeyKind, change: &PrincipalKey) -> Result<(), KeyFault>
    requires fits { ChangeFits change.now }
    ensures step { OnOk result ((s : State) → Agrees table.old.state s
        → IsNextRecord s (record_of.Key kind change.now)
        × Agrees table.new.state (with_record (record_of.Key kind change.now) s)) }
    ensures counts { (table.new.events ≡ table.old.events) × (table.new.seen ≡ table.old.seen)
        × (table.new.max_entries ≡ table.old.max_entries) }
    ensures first { IfErr result (λ fault. IsRecordRefused table.old (record_of.Key kind change.now) fault) }
{
    let name = &change.name;
    match kind {
        KeyKind::Change => table.restore_key(name, change.key),
        KeyKind::Base => table.restore_base(name, change.key),
        KeyKind::Adopt => table.restore_adopted(name, change.key),
        KeyKind::Lift => table.restore_lifted(name, change.key),
        KeyKind::Remove => table.restore_removed(name),
    }
}
