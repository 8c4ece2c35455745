//! What becomes of a name that the KDC has.
ghost use Rattle.std.specs.Prelude.{◌≡◌, Bool};
ghost use Rattle.chpw_rules.specs.declared.name.Name.{Name};
ghost use Rattle.std.specs.Option.{option_copied};
ghost use Rattle.chpw_kdc.specs.Mirrors.{judgement, may_adopt, is_same, adopted, newer};

use crate::fields::KeyPair;
use chpw_record::KeyRow;
use chpw_rules::{Name, NamePatterns};

/// The iteration count under which KDCs derive keys (RFC 3962 section 4).
pub const DEFAULT_COUNT: u32 = 4_096;

/// Says which of the KDC's names are the service's.
pub trait IsOurs {
    /// Whether the name is the service's.
    ghost ours: { Self → Name → Bool };

    /// Whether the name is the service's.
    fn is_ours(&self, name: &Name) -> bool
        ensures { result ≡ ours self.now name.now };
}

// By patterns, if there are any.
impl IsOurs for Option<NamePatterns> {
    ghost use Rattle.chpw_kdc.specs.Mirrors.{are_ours};

    ghost ours = { are_ours };

    fn is_ours(&self, name: &Name) -> bool {
        match self {
            None => false,
            Some(patterns) => patterns.is_ours(name),
        }
    }
}

/// What becomes of a name that the KDC has.
#[derive(Clone, Copy, Drop)]
pub(crate) enum Judgement {
    /// Nothing: both have the same, or the name isn't the service's.
    Leave,
    /// The service adopts this key.
    Adopt(KeyRow),
    /// The KDC gets this key.
    Put(KeyRow),
}

/// What becomes of a name of which this key is held, and of which the KDC has these keys in this version.
pub(crate) fn judge<O: IsOurs>(
    ours: &O,
    held: Option<&KeyRow>,
    name: &Name,
    kvno: u32,
    keys: &KeyPair,
) -> Judgement
    ensures value { result ≡ judgement (O.ours ours.now) (option_copied held.entry) name.now kvno keys.now }
{
    match held {
        None if may_adopt(ours, name) => Judgement::Adopt(adopted(kvno, keys)),
        None => Judgement::Leave,
        Some(held) if held.kvno < kvno => Judgement::Adopt(adopted(kvno, keys)),
        Some(held) if is_same(held, kvno, keys) => Judgement::Leave,
        Some(held) => Judgement::Put(*held),
    }
}

// Whether a name that isn't held may be adopted: of one component, within the limits, and the service's.
fn may_adopt<O: IsOurs>(ours: &O, name: &Name) -> bool
    ensures value { result ≡ may_adopt (O.ours ours.now) name.now }
{
    name.parts.as_slice().len() == 1 && name.fits() && ours.is_ours(name)
}

/// Whether this is the version, and these the keys.
pub(crate) fn is_same(held: &KeyRow, kvno: u32, keys: &KeyPair) -> bool
    ensures value { result ≡ is_same held.now kvno keys.now }
{
    held.kvno == kvno && held.aes128 == keys.aes128 && held.aes256 == keys.aes256
}

// The KDC's keys, which were derived under the default count.
fn adopted(kvno: u32, keys: &KeyPair) -> KeyRow
    ensures value { result ≡ adopted kvno keys.now }
{
    KeyRow {
        kvno,
        count: DEFAULT_COUNT,
        aes128: keys.aes128,
        aes256: keys.aes256,
    }
}

/// The newer of two keys; the second if neither is newer.
pub(crate) fn newer(held: KeyRow, key: KeyRow) -> KeyRow
    ensures value { result ≡ newer held key }
{
    if key.kvno < held.kvno { held } else { key }
}
