//! Strings of bytes: OCTET STRING and GeneralString (X.690 sections 8.7 and 8.23).

ghost use Rattle.std.specs.Prelude.{◌≡◌, ◌==◌, refl};
ghost use Rattle.std.specs.Cmp.Lexicographic.{pointwise};
ghost use Rattle.std.specs.Cmp.Rules.{comparing};
ghost use Rattle.krb_codec.specs.Shapes.{Value, primitive, octets};
ghost use Rattle.krb_codec.specs.Reading.{reads};
ghost use Rattle.krb_codec.specs.Sinks.{puts};

use crate::element::Element;
use crate::fault::ReadError;
use crate::reading::Read;
use crate::region::Region;
use crate::sink::Sink;
use crate::tag::{GENERAL_STRING, OCTET_STRING};
use crate::writing::Write;
use std::alloc::{AllocError, Global};
use std::marker::Model;

/// Bytes under a tag, which contracts see as a list.
#[derive(Drop)]
pub struct Bytes<const TAG: u8> {
    bytes: Vec<u8>,
}

impl<const TAG: u8> Model for Bytes<TAG> {
    ghost use Rattle.std.specs.Prelude.{List, ℕ};

    ghost Value = { List ℕ };

    ghost view = { λ o. o.bytes.items };
}

/// An OCTET STRING.
pub type OctetString = Bytes<OCTET_STRING>;

/// A GeneralString: a realm, a component of a name or a text. Its bytes may be any.
pub type GeneralString = Bytes<GENERAL_STRING>;

impl<const TAG: u8> Bytes<TAG> {
    /// The bytes of this vector, which is kept.
    pub fn of(bytes: Vec<u8>) -> Bytes<TAG>
        ensures value { result ≡ bytes.items }
    {
        Bytes { bytes }
    }

    /// The bytes in order.
    pub fn as_slice(&self) -> &[u8]
        ensures value { result.now ≡ self.now }
    {
        &self.bytes
    }

    /// The vector of the bytes.
    pub fn into_vec(self) -> Vec<u8>
        ensures value { result.items ≡ self.entry }
    {
        self.bytes
    }
}

impl<const TAG: u8> PartialEq for Bytes<TAG> {
    ghost eq = { pointwise ◌==◌ };

    ghost laws = { Prim.search comparing };

    fn eq(&self, other: &Self) -> bool {
        self.as_slice() == other.as_slice()
    }
}

impl<const TAG: u8> Element for Bytes<TAG> {
    ghost shape = { primitive (octets TAG) };

    ghost value = { λ o. o };

    ghost legal = { refl };
}

impl<const TAG: u8> Read for Bytes<TAG> {
    #[tactic(auto, unfolding(crate::specs::Reading::reads))]
    fn read(alloc: Global, region: &mut Region<'_>) -> Result<Bytes<TAG>, ReadError> {
        let content = region.element(TAG)?;
        Ok(Bytes::of(Vec::from_slice(alloc, content.rest())?))
    }
}

impl<const TAG: u8> Write for Bytes<TAG> {
    #[tactic(auto, unfolding(crate::specs::Sinks::puts))]
    fn write<S: Sink>(&self, sink: &mut S) -> Result<(), AllocError> {
        sink.put(TAG, self.as_slice(), true)
    }
}
