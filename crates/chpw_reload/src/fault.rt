//! Why a reload is refused.
ghost use Rattle.std.specs.Prelude.{◌≡◌, ◌++◌, OnOk};
ghost use Rattle.chpw_reload.specs.Reasons.{fault_of, fault_text, keys_text, realms_text};
ghost use Rattle.chpw_journal.specs.Restoring.{fault_text as restore_text};

use chpw_journal::RestoreFault;
use chpw_printing::{put_name, put_quoted};
use chpw_rules::{Items, Name};
use std::alloc::AllocError;

/// Why a reload is refused, in the order of the checks. The service then goes on with its present table.
#[derive(Drop)]
pub enum ReloadFault {
    /// The new configuration is of another realm than the table that is held.
    Realm { held: Items<u8>, new: Items<u8> },
    /// The journal can't be replayed over the new configuration: its first fault, and the number of its record in the
    /// whole journal.
    Journal(RestoreFault),
    /// This principal's keys, as many as the new depth keeps, aren't the newest that the new configuration and the
    /// journal give.
    Keys(Name),
    /// Both together have more principals than a configuration may.
    Limits,
    /// A growth was refused.
    Memory,
}

impl From<AllocError> for ReloadFault {
    ghost use Rattle.std.specs.Prelude.{◌≡◌};
    ghost use Rattle.chpw_reload.specs.declared.fault.ReloadFault.TheVariants.{Memory};

    ghost from_gives = { λ _ fault. fault ≡ Memory };

    fn from(_error: AllocError) -> ReloadFault {
        ReloadFault::Memory
    }
}

impl ReloadFault {
    /// The fault of a journal, as a reload's.
    pub(crate) fn of(fault: RestoreFault) -> ReloadFault
        ensures value { result ≡ fault_of fault }
    {
        match fault {
            RestoreFault::Memory => ReloadFault::Memory,
            fault => ReloadFault::Journal(fault),
        }
    }
}

/// Adds the fault to a text as it is printed: `other keys of alice`.
pub fn put_fault(text: &mut Vec<u8>, fault: &ReloadFault) -> Result<(), AllocError>
    ensures value { OnOk result (text.new.items ≡ text.old.items ++ fault_text fault.now) }
{
    match fault {
        ReloadFault::Realm { held, new } => put_realms(text, held.as_slice(), new.as_slice()),
        ReloadFault::Journal(fault) => put_journal_fault(text, *fault),
        ReloadFault::Keys(name) => put_keys_fault(text, name),
        ReloadFault::Limits => text.extend_from_slice(b"too many principals"),
        ReloadFault::Memory => text.extend_from_slice(b"memory"),
    }
}

// Another realm than the one that is held.
fn put_realms(text: &mut Vec<u8>, held: &[u8], new: &[u8]) -> Result<(), AllocError>
    ensures value { OnOk result (text.new.items ≡ text.old.items ++ realms_text held.now new.now) }
{
    text.extend_from_slice(b"another realm: ")?;
    put_quoted(text, new)?;
    text.extend_from_slice(b", not ")?;
    put_quoted(text, held)
}

fn put_keys_fault(text: &mut Vec<u8>, name: &Name) -> Result<(), AllocError>
    ensures value { OnOk result (text.new.items ≡ text.old.items ++ keys_text name.now) }
{
    text.extend_from_slice(b"other keys of ")?;
    put_name(text, name)
}

fn put_journal_fault(text: &mut Vec<u8>, fault: RestoreFault) -> Result<(), AllocError>
    ensures value { OnOk result (text.new.items ≡ text.old.items ++ restore_text fault) }
{
    let words = fault.to_string(*text.allocator())?;
    text.extend_from_slice(words.as_bytes())
}
