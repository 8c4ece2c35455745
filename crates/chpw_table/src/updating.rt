//! What the KDC says of a principal, and the result.
ghost use Rattle.std.specs.Prelude.{◌≡◌, Decides, IfOk};

use crate::same_keys::is_same_key;
use chpw_record::{KeyKind, KeyRow};
use chpw_rules::{ITERATION_COUNTS, KVNOS, Name};
use krb_protocol::codes::{KRB5_KPASSWD_HARDERROR, KRB5_KPASSWD_SUCCESS};
use std::alloc::AllocError;

/// What the KDC's database has of a principal, told after a comparison with what is held.
#[derive(Drop)]
pub enum KdcUpdate {
    /// This key, newer than those held of the name, or the first of a name that isn't held.
    Adopt { name: Name, key: KeyRow },
    /// The newest key under this version, which is greater.
    Lift { name: Name, kvno: u32 },
    /// Nothing: the name is to be held no more.
    Remove { name: Name },
}

/// The verdicts on an update, in the order of the checks.
#[derive(Clone, Copy, Drop)]
pub enum UpdateVerdict {
    /// The name isn't held.
    NoSuchPrincipal,
    /// The version is not above the newest one held.
    NotNewer,
    /// The journal did not take the update, or has failed earlier.
    Broken,
    /// It is as the KDC has it from then on.
    Taken,
}

/// Why no update was decided, in the order of the checks.
#[derive(Clone, Copy, Drop)]
pub enum UpdateFault {
    /// The table has decided as many events as allowed.
    Full,
    /// The update would add a principal, and there are as many as a configuration may have.
    TooMany,
    /// A growth was refused.
    Memory,
}

/// A refusal; table and journal are unchanged, and the update is returned.
#[derive(Drop)]
pub struct UpdateRefused {
    pub fault: UpdateFault,
    pub update: KdcUpdate,
}

/// What was decided; the update is returned.
#[derive(Drop)]
pub struct UpdateOutcome {
    pub verdict: UpdateVerdict,
    /// Whether the append of this event failed.
    pub io_failed: bool,
    pub update: KdcUpdate,
}

impl KdcUpdate {
    ghost use Rattle.chpw_table.specs.Replies.{taken_text};
    ghost use Rattle.chpw_table.specs.Updates.{kind_of, name_in, update_fits};

    /// The name of its principal.
    pub fn name(&self) -> &Name
        ensures value { result.now ≡ name_in self.now }
    {
        match self {
            KdcUpdate::Adopt { name, .. }
            | KdcUpdate::Lift { name, .. }
            | KdcUpdate::Remove { name } => name,
        }
    }

    // The kind of its record.
    pub(crate) fn kind(&self) -> KeyKind
        ensures value { result ≡ kind_of self.now }
    {
        match self {
            KdcUpdate::Adopt { .. } => KeyKind::Adopt,
            KdcUpdate::Lift { .. } => KeyKind::Lift,
            KdcUpdate::Remove { .. } => KeyKind::Remove,
        }
    }

    /// Whether its version and its iteration count are within a configuration's limits, and, of a key that is adopted,
    /// the name too.
    pub fn fits(&self) -> bool
        ensures value { result ≡ update_fits self.now }
    {
        match self {
            KdcUpdate::Adopt { name, key } => {
                name.fits()
                    && KVNOS.allow(key.kvno as usize)
                    && ITERATION_COUNTS.allow(key.count as usize)
            }
            KdcUpdate::Lift { kvno, .. } => KVNOS.allow(*kvno as usize),
            KdcUpdate::Remove { .. } => true,
        }
    }

    /// A copy of it.
    pub fn clone(&self) -> Result<KdcUpdate, AllocError>
        ensures value { IfOk result (λ copy. copy ≡ self.now) }
    {
        let name = self.name().clone()?;
        Ok(match self {
            KdcUpdate::Adopt { key, .. } => KdcUpdate::Adopt { name, key: *key },
            KdcUpdate::Lift { kvno, .. } => KdcUpdate::Lift { name, kvno: *kvno },
            KdcUpdate::Remove { .. } => KdcUpdate::Remove { name },
        })
    }

    /// Whether both are equal in every part.
    #[tactic(auto, using(crate::proofs::NameLemmas::same_names))]
    pub fn is_same(&self, other: &KdcUpdate) -> bool
        ensures same { Decides result (self.now ≡ other.now) }
    {
        match (self, other) {
            (
                KdcUpdate::Adopt { name, key },
                KdcUpdate::Adopt {
                    name: of,
                    key: this,
                },
            ) => name.is_same(of) && is_same_key(key, this),
            (KdcUpdate::Lift { name, kvno }, KdcUpdate::Lift { name: of, kvno: to }) => {
                *kvno == *to && name.is_same(of)
            }
            (KdcUpdate::Remove { name }, KdcUpdate::Remove { name: of }) => name.is_same(of),
            _ => false,
        }
    }

    // What is told of it if it is taken.
    fn taken_text(&self) -> &'static str
        ensures value { result.now ≡ taken_text self.now }
    {
        match self {
            KdcUpdate::Adopt { .. } => "adopted",
            KdcUpdate::Lift { .. } => "lifted",
            KdcUpdate::Remove { .. } => "removed",
        }
    }
}

impl UpdateVerdict {
    ghost use Rattle.chpw_table.specs.Replies.{told_of_update};
    ghost use Rattle.chpw_table.specs.Updates.{is_taken};

    /// Its result code for an update (RFC 3244 section 2).
    pub fn code(self, update: &KdcUpdate) -> u16
        ensures value { result ≡ (told_of_update update.now self).code }
    {
        match self {
            UpdateVerdict::NoSuchPrincipal | UpdateVerdict::NotNewer | UpdateVerdict::Broken => {
                KRB5_KPASSWD_HARDERROR
            }
            UpdateVerdict::Taken => KRB5_KPASSWD_SUCCESS,
        }
    }

    /// Its text for an update, ASCII.
    pub fn text(self, update: &KdcUpdate) -> &'static str
        ensures value { result.now ≡ (told_of_update update.now self).text }
    {
        match self {
            UpdateVerdict::NoSuchPrincipal => "no such principal",
            UpdateVerdict::NotNewer => "not newer",
            UpdateVerdict::Broken => "journal failed",
            UpdateVerdict::Taken => update.taken_text(),
        }
    }

    /// Whether it was taken.
    pub fn is_taken(self) -> bool
        ensures value { result ≡ is_taken self }
    {
        matches!(self, UpdateVerdict::Taken)
    }
}
