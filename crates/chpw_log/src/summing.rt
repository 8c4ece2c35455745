//! The summary of messages without a line of their own.
ghost use Rattle.std.specs.Prelude.{◌≡◌, ◌+◌, ◌++◌, ◌<◌, ◌≤◌, codes, true, IfOk, OnOk};
ghost use Rattle.std.specs.Fmt.{decimal};
ghost use Rattle.chpw_printing.specs.Quoting.{are_printed};
ghost use Rattle.chpw_table.specs.Times.{IsMoment};
ghost use Rattle.chpw_log.specs.Lines.{IsRecord, are_fields};
ghost use Rattle.chpw_log.specs.Summaries.{held_fields, held_line, held_words, kind_words};

use crate::held_count::HeldCount;
use crate::kind::HeldKind;
use crate::moment::put_moment;
use chpw_printing::put_number;
use chpw_table::Moment;
use std::alloc::{AllocError, Global};

/// The line that says how many messages of this kind were held back, with its newline. It has the fields of every line, with `-` for
/// all but the moment and the text.
pub fn write_held(
    alloc: Global,
    moment: Moment,
    kind: HeldKind,
    held: &HeldCount,
) -> Result<Vec<u8>, AllocError>
    requires moment { IsMoment moment }
    requires micros { moment.micros < 1000000 }
    requires few { held.now.loopback + held.now.other ≤ 1000000 }
    ensures value { IfOk result (λ text. text.items ≡ held_line moment kind held.now) }
    ensures fields { IfOk result (λ _. are_fields (held_fields moment kind held.now) ≡ true) }
    ensures record { IfOk result (λ text. IsRecord text.items) }
{
    let mut text = Vec::new(alloc);
    put_moment(&mut text, moment)?;
    text.extend_from_slice(b" worker - peer - client - target - code - error - kvno - text ")?;
    put_words(&mut text, kind, held)?;
    text.push(b'\n')?;
    Ok(text)
}

// Adds the numbers in words.
fn put_words(text: &mut Vec<u8>, kind: HeldKind, held: &HeldCount) -> Result<(), AllocError>
    requires few { held.now.loopback + held.now.other ≤ 1000000 }
    ensures value { OnOk result (text.new.items ≡ text.old.items ++ held_words kind held.now) }
    ensures printed { OnOk result (are_printed (held_words kind held.now) ≡ true) }
{
    put_number(text, u64::from(total(held)))?;
    put_counts(text, kind, held)?;
    text.extend_from_slice(b" from elsewhere")?;
    Ok(())
}

// Adds how many came from where.
fn put_counts(text: &mut Vec<u8>, kind: HeldKind, held: &HeldCount) -> Result<(), AllocError>
    ensures value { OnOk result (text.new.items ≡ text.old.items
        ++ kind_words kind ++ decimal held.now.loopback
        ++ codes " from 127.0.0.0/8 or ::1, " ++ decimal held.now.other) }
{
    text.extend_from_slice(words_of(kind))?;
    put_number(text, u64::from(held.loopback))?;
    text.extend_from_slice(b" from 127.0.0.0/8 or ::1, ")?;
    put_number(text, u64::from(held.other))
}

// What is counted, in words.
fn words_of(kind: HeldKind) -> &'static [u8]
    ensures value { result.now ≡ kind_words kind }
{
    match kind {
        HeldKind::Unopened => b" more did not open: ",
        HeldKind::Skewed => b" more had too great a clock skew: ",
        HeldKind::Replayed => b" more were replayed: ",
    }
}

fn total(held: &HeldCount) -> u32
    requires few { held.now.loopback + held.now.other ≤ 1000000 }
    ensures value { result ≡ held.now.loopback + held.now.other }
{
    held.loopback + held.other
}
