//! Names with no memory of their own.
ghost use Rattle.std.specs.Prelude.{◌≡◌, ◌∷◌, [], IsTrue, IfSome, IfNone, true, false, take};
ghost use Rattle.chpw_rules.specs.Names.{name_cmp};
ghost use Rattle.chpw_changelog.specs.Changes.{short_name, is_short};

use chpw_rules::Name;
use std::cmp::Ordering;

/// The most bytes of such a name, which a component may have.
pub const SHORT_NAME_LIMIT: usize = 128;

/// A name of one component of at most 128 bytes. After them there are zeros.
#[derive(Clone, Copy, Drop)]
pub struct ShortName {
    len: usize,
    bytes: [u8; SHORT_NAME_LIMIT],
}

impl ShortName {
    /// The name; none if it has not exactly one component, or one of more than 128 bytes.
    pub fn of(name: &Name) -> Option<ShortName>
        ensures some { IfSome result (λ short. (is_short name.now ≡ true) × (short_name short ≡ name.now)) }
        ensures none { IfNone result (is_short name.now ≡ false) }
    {
        match name.parts.as_slice() {
            [part] => ShortName::with_bytes(part.as_slice()),
            _ => None,
        }
    }

    // The name whose one component this is.
    fn with_bytes(part: &[u8]) -> Option<ShortName>
        ensures some { IfSome result (λ short. (is_short (record { parts = part.now ∷ [] }) ≡ true)
            × (short_name short ≡ record { parts = part.now ∷ [] })) }
        ensures none { IfNone result (is_short (record { parts = part.now ∷ [] }) ≡ false) }
    {
        let len = part.len();
        if len > SHORT_NAME_LIMIT {
            return None;
        }
        let mut bytes = [0; SHORT_NAME_LIMIT];
        bytes[..len].copy_from_slice(part);
        Some(ShortName { len, bytes })
    }

    /// How it compares with a name, in the order of names.
    pub fn compare(&self, name: &Name) -> Ordering
        ensures value { result ≡ name_cmp (short_name self.now) name.now }
    {
        match name.parts.as_slice() {
            [] => Ordering::Greater,
            [part] => self.as_slice().cmp(part.as_slice()),
            [part, ..] => self.as_slice().cmp(part.as_slice()).then(Ordering::Less),
        }
    }

    /// How it compares with another, in the order of names.
    pub fn compare_short(&self, other: &ShortName) -> Ordering
        ensures value { result ≡ name_cmp (short_name self.now) (short_name other.now) }
    {
        self.as_slice().cmp(other.as_slice())
    }

    // The bytes of its component.
    fn as_slice(&self) -> &[u8]
        ensures value { result.now ≡ take self.now.len self.now.bytes }
    {
        if self.len < SHORT_NAME_LIMIT {
            &self.bytes[..self.len]
        } else {
            &self.bytes
        }
    }

    /// Whether both are equal, byte by byte.
    pub fn is_same(self, other: ShortName) -> bool
        ensures same { IsTrue result → self ≡ other }
        ensures other { self ≡ other → IsTrue result }
    {
        self.len == other.len && self.bytes == other.bytes
    }
}
