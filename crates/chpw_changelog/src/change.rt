//! AcceptedChange changes, as code carries them: with no memory of their own.
ghost use Rattle.std.specs.Prelude.{◌≡◌, IsTrue};
ghost use Rattle.chpw_changelog.specs.declared.change.NumberedChange.TheVariants.{Count};

use crate::short_name::ShortName;

/// The principal that a change is of.
#[derive(Clone, Copy, Drop)]
pub enum Whose {
    /// The one with this place in the opening, from 0.
    Number(usize),
    /// The one with this name, which may lack in the opening.
    Short(ShortName),
}

/// What happens to a principal's keys.
#[derive(Clone, Copy, Drop)]
pub enum KeysChange {
    /// A new key: its kvno, and the iteration count of the new keys.
    Key { kvno: u32, count: u32 },
    /// A key of the KDC's, in front or as the first.
    Adopted { kvno: u32, count: u32 },
    /// The newest key has this version from then on.
    Lifted(u32),
    /// The principal isn't held any more.
    Removed,
}

/// What was accepted (`chpw_table::AcceptedChange`).
#[derive(Clone, Copy, Drop)]
pub enum NumberedChange {
    /// A change of a principal's keys.
    Keys(Whose, KeysChange),
    /// A new iteration count of new keys.
    Count(u32),
}

impl Whose {
    fn is_same(self, other: Whose) -> bool
        ensures same { IsTrue result → self ≡ other }
        ensures other { self ≡ other → IsTrue result }
    {
        match (self, other) {
            (Whose::Number(number), Whose::Number(other)) => number == other,
            (Whose::Short(name), Whose::Short(other)) => name.is_same(other),
            _ => false,
        }
    }
}

impl KeysChange {
    fn is_same(self, other: KeysChange) -> bool
        ensures same { IsTrue result → self ≡ other }
        ensures other { self ≡ other → IsTrue result }
    {
        match (self, other) {
            (
                KeysChange::Key { kvno, count },
                KeysChange::Key {
                    kvno: other,
                    count: others,
                },
            ) => kvno == other && count == others,
            (
                KeysChange::Adopted { kvno, count },
                KeysChange::Adopted {
                    kvno: other,
                    count: others,
                },
            ) => kvno == other && count == others,
            (KeysChange::Lifted(kvno), KeysChange::Lifted(other)) => kvno == other,
            (KeysChange::Removed, KeysChange::Removed) => true,
            _ => false,
        }
    }
}

impl NumberedChange {
    /// A value for where there is no change.
    pub fn none() -> NumberedChange
        ensures value { result ≡ Count 0 }
    {
        NumberedChange::Count(0)
    }

    /// Whether both are equal in every part.
    pub(crate) fn is_same(self, other: NumberedChange) -> bool
        ensures same { IsTrue result → self ≡ other }
        ensures other { self ≡ other → IsTrue result }
    {
        match (self, other) {
            (NumberedChange::Keys(whose, keys), NumberedChange::Keys(other, others)) => {
                whose.is_same(other) && keys.is_same(others)
            }
            (NumberedChange::Count(count), NumberedChange::Count(other)) => count == other,
            _ => false,
        }
    }
}
