//! Flags (RFC 4120 section 5.2.8): the element, whose contents are in `bits`.

ghost use Rattle.std.specs.Prelude.{◌≡◌, refl};
ghost use Rattle.krb_codec.specs.BitStrings.{is_set};
ghost use Rattle.krb_codec.specs.Shapes.{flags};
ghost use Rattle.krb_codec.specs.Reading.{reads};
ghost use Rattle.krb_codec.specs.Sinks.{puts};

use crate::bits::{bits_in, bits_octets};
use crate::element::Element;
use crate::fault::ReadError;
use crate::reading::Read;
use crate::region::Region;
use crate::sink::Sink;
use crate::tag::BIT_STRING;
use crate::writing::Write;
use std::alloc::{AllocError, Global};

/// The first 32 flags; bit 0 is the highest.
#[derive(Clone, Copy)]
pub struct KerberosFlags(pub u32);

impl KerberosFlags {
    /// Whether a bit is set, bit 0 the highest; none past bit 31 is.
    pub fn is_set(self, bit: u32) -> bool
        ensures value { result ≡ is_set self.0 bit }
    {
        bit < 32 && (self.0 >> (31 - bit)) % 2 == 1
    }
}

impl Element for KerberosFlags {
    ghost shape = { flags };

    ghost value = { λ f. f.0 };

    ghost legal = { refl };
}

impl Read for KerberosFlags {
    #[tactic(auto, unfolding(crate::specs::Reading::reads))]
    fn read(_alloc: Global, region: &mut Region<'_>) -> Result<KerberosFlags, ReadError> {
        let place = region.place();
        let content = region.element(BIT_STRING)?;
        Ok(KerberosFlags(bits_in(place, content.rest())?))
    }
}

impl Write for KerberosFlags {
    #[tactic(auto, unfolding(crate::specs::Sinks::puts))]
    fn write<S: Sink>(&self, sink: &mut S) -> Result<(), AllocError> {
        sink.put(BIT_STRING, &bits_octets(self.0), true)
    }
}
