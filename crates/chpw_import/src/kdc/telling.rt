//! The lines about a KDC's principals that aren't imported.
ghost use Rattle.std.specs.Prelude.{◌≡◌, ◌++◌, IfOk, OnOk};
ghost use Rattle.chpw_import.specs.KdcLines.{left_line, reason_words, told};
ghost use Rattle.chpw_import.specs.KdcChoices.{choice_of};

use crate::counts::put_counts;
use crate::kdc::choosing::{KdcImport, LeftName, LeftReason};
use chpw_kdc::Reason;
use chpw_printing::put_name;
use std::alloc::{AllocError, Global};

/// A line for each principal that isn't imported, after the socket's name, and one with both numbers.
pub(crate) fn told_of(
    alloc: Global,
    socket: &str,
    import: &KdcImport,
) -> Result<Vec<u8>, AllocError>
    ensures value { IfOk result (λ text. text.items ≡ told socket.now (choice_of import.now)) }
{
    let mut text = Vec::new(alloc);
    for left in &import.left {
        put_left(&mut text, socket, left)?;
    }
    put_counts(&mut text, import.principals.len(), import.left.len())?;
    Ok(text)
}

fn put_left(text: &mut Vec<u8>, socket: &str, left: &LeftName) -> Result<(), AllocError>
    ensures value { OnOk result (text.new.items ≡ text.old.items ++ left_line socket.now left.now) }
{
    text.extend_from_slice(socket.as_bytes())?;
    text.extend_from_slice(b": skipped: ")?;
    put_name(text, &left.name)?;
    text.extend_from_slice(b": ")?;
    text.extend_from_slice(words_of(left.why))?;
    text.extend_from_slice(b"\n")
}

fn words_of(why: LeftReason) -> &'static [u8]
    ensures value { result.now ≡ reason_words why }
{
    match why {
        LeftReason::Untold(Reason::Reserved) => b"the KDC or its servers live by it",
        LeftReason::Untold(Reason::Components) =>
            b"the agent tells no keys of more than one component",
        LeftReason::Untold(Reason::Lockdown) => b"its keys are locked down",
        LeftReason::Untold(Reason::Keys) => {
            b"it lacks a key of etype 17 or 18 under the default salt"
        }
        LeftReason::Untold(Reason::Version) => b"the database has no higher version",
        LeftReason::NotOurs => b"[kdc] doesn't include it, or excludes it",
        LeftReason::BadName => {
            b"a name has 1 to 8 components of 1 to 128 bytes, in UTF-8 and without a /"
        }
        LeftReason::NoVersion => b"a version is at least 1",
        LeftReason::TooMany => b"there are 10000 principals already",
    }
}
