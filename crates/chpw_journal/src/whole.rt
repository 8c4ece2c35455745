//! A table restored from a whole journal: what its beginning says of its realm, and the records of its history.
ghost use Rattle.std.specs.Prelude.{◌≡◌, IfErr, IfOk, IfSome, Option, List, ℕ, length, true, false};
ghost use Rattle.std.specs.Io.KnownBytes.{Consumes};
ghost use Rattle.chpw_rules.specs.Limits.{is_in, realm_lengths};
ghost use Rattle.chpw_journal.specs.Headings.{IsWholeRefused, IsWholeRestored, begins_as_heading, realm_record};

use crate::fault::RestoreFault;
use crate::heading::{Heading, read_heading};
use crate::restoring::{Restored, restore};
use chpw_table::Table;
use std::alloc::Global;
use std::io::{BufReader, Read};

/// The bytes of a realm's record before the realm: its length and its kind.
const BEFORE_REALM: u64 = 3;

/// The table with the records of the whole journal in a file, which is at its beginning, and the file. A journal that
/// begins with the record of another realm than the table's is refused as `OtherRealm`, and one that ends within such a
/// record as `BadRecord`, number 1; without such a record it is restored as [`restore`] does. The record of the realm isn't
/// counted, and what was kept has its bytes, too.
pub fn restore_file<F: Read + Drop>(
    alloc: Global,
    table: Table,
    file: F,
) -> Result<(Restored, F), RestoreFault>
    ensures restored { IfOk result (λ r. IsWholeRestored table (F.remaining file) r.0) }
    ensures first { IfErr result (λ fault. IsWholeRefused table (F.remaining file) fault) }
{
    let Ok(mut reader) = BufReader::new(alloc, file) else {
        return Err(RestoreFault::Memory);
    };
    match restore_whole(alloc, table, &mut reader) {
        Err(fault) => Err(fault),
        Ok(restored) => Ok((restored, reader.into_inner())),
    }
}

// Restores from a reader of a whole journal.
fn restore_whole<R: Read>(
    alloc: Global,
    table: Table,
    reader: &mut R,
) -> Result<Restored, RestoreFault>
    ensures restored { IfOk result (λ r. IsWholeRestored table (R.remaining reader.old) r) }
    ensures first { IfErr result (λ fault. IsWholeRefused table (R.remaining reader.old) fault) }
{
    match read_heading(alloc, reader)? {
        Heading::None(head) => restore_unnamed(alloc, table, &head, reader),
        Heading::Realm(realm) => restore_named(alloc, table, &realm, reader),
        Heading::Torn => Err(RestoreFault::BadRecord(1)),
        Heading::CannotRead => Err(RestoreFault::CannotRead),
    }
}

// Restores from a journal without a realm's record, of which these bytes were read.
fn restore_unnamed<R: Read>(
    alloc: Global,
    table: Table,
    head: &[u8],
    reader: &mut R,
) -> Result<Restored, RestoreFault>
    ensures restored { IfOk result (λ r. (before : Option (List ℕ)) → Consumes before (R.remaining reader.old) head.now
        → IfSome before (λ text. begins_as_heading text ≡ false) → IsWholeRestored table before r) }
    ensures first { IfErr result (λ fault. (before : Option (List ℕ)) → Consumes before (R.remaining reader.old) head.now
        → IfSome before (λ text. begins_as_heading text ≡ false) → IsWholeRefused table before fault) }
{
    let mut whole = head.chain(reader);
    match restore(alloc, table, &mut whole) {
        Err(fault) => Err(fault),
        Ok(restored) => Ok(restored),
    }
}

// Restores from what follows the record of this realm.
fn restore_named<R: Read>(
    alloc: Global,
    table: Table,
    realm: &[u8],
    reader: &mut R,
) -> Result<Restored, RestoreFault>
    requires few { is_in realm_lengths (length realm.now) ≡ true }
    ensures restored { IfOk result (λ r. (before : Option (List ℕ)) → Consumes before (R.remaining reader.old) (realm_record realm.now)
        → IsWholeRestored table before r) }
    ensures first { IfErr result (λ fault. (before : Option (List ℕ)) → Consumes before (R.remaining reader.old) (realm_record realm.now)
        → IsWholeRefused table before fault) }
{
    if realm != table.realm() {
        return Err(RestoreFault::OtherRealm);
    }
    match restore(alloc, table, reader) {
        Err(fault) => Err(fault),
        Ok(mut restored) => {
            restored.kept += BEFORE_REALM + realm.len() as u64;
            Ok(restored)
        }
    }
}
