//! Principal names.
ghost use Rattle.std.specs.Prelude.{◌≡◌, map, true, IfOk, IfSome};
ghost use Rattle.std.specs.List.{join_with_byte};
ghost use Rattle.chpw_rules.specs.Names.{is_component, is_name, is_same_name, name_of, parts_of};

use crate::items::Items;
use crate::limits::{COMPONENT_COUNTS, COMPONENT_LENGTHS, Limited, all_fit};
use std::alloc::{AllocError, Global};

/// A principal's name: its components (RFC 4120 section 6.2); the name-type is no part of it. Names are ordered by
/// their components, each compared as bytes, a prefix first.
#[derive(PartialEq, Eq, PartialOrd, Ord, Drop)]
pub struct Name {
    pub parts: Items<Items<u8>>,
}

impl Name {
    /// The name whose components are the parts of the text between `/`: `None` unless they are 1 to 8 components of 1
    /// to 128 bytes. A component has no `/`.
    pub fn parse(alloc: Global, text: &str) -> Result<Option<Name>, AllocError>
        ensures value { IfOk result (λ found. found ≡ name_of text.now) }
        ensures whole { IfOk result (λ found.
            IfSome found (λ name. join_with_byte 47 name.parts ≡ text.now)) }
        ensures fits { IfOk result (λ found. IfSome found (λ name. is_name name ≡ true)) }
    {
        let parts = pieces(alloc, text)?;
        let parts = copies(alloc, parts.as_slice())?;
        let name = Name {
            parts: Items::of(parts),
        };
        Ok(if name.fits() { Some(name) } else { None })
    }

    /// Whether the name has 1 to 8 components of 1 to 128 bytes.
    pub fn fits(&self) -> bool
        ensures value { result ≡ is_name self.now }
    {
        let parts = self.parts.as_slice();
        COMPONENT_COUNTS.allow(parts.len()) && all_fit(parts)
    }

    /// A copy of the name in new memory, from the same allocator.
    pub fn clone(&self) -> Result<Name, AllocError>
        ensures value { IfOk result (λ copy. copy ≡ self.now) }
    {
        let parts = self.parts.as_slice();
        let mut copies = Vec::with_capacity(*self.parts.allocator(), parts.len())?;
        for part in parts {
            copies.push(part.clone()?)?;
        }
        Ok(Name {
            parts: Items::of(copies),
        })
    }

    /// Whether the components are equal, one by one.
    pub fn is_same(&self, other: &Name) -> bool
        ensures value { result ≡ is_same_name self.now other.now }
    {
        self == other
    }
}

impl Limited for Items<u8> {
    ghost fits = { is_component };

    fn fits(&self) -> bool {
        COMPONENT_LENGTHS.allow(self.as_slice().len())
    }
}

// The parts of the text between its bytes `/`.
fn pieces<'a>(alloc: Global, text: &'a str) -> Result<Vec<&'a str>, AllocError>
    ensures value { IfOk result (λ pieces. map (λ part. part.now) pieces.items
        ≡ parts_of text.now) }
{
    text.split('/').collect(alloc)
}

// Copies of the texts' bytes.
fn copies(alloc: Global, parts: &[&str]) -> Result<Vec<Items<u8>>, AllocError>
    ensures value { IfOk result (λ copies. copies.items ≡ map (λ part. part.now) parts.now) }
{
    let mut copies = Vec::with_capacity(alloc, parts.len())?;
    for part in parts {
        copies.push(Items::of(Vec::from_slice(alloc, part.as_bytes())?))?;
    }
    Ok(copies)
}
