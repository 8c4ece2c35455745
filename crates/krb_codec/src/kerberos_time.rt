//! Times as elements: a GeneralizedTime in whole seconds (RFC 4120 section 5.2.3). Its contents are
//! in `time`.

ghost use Rattle.std.specs.Prelude.{refl};
ghost use Rattle.krb_codec.specs.Shapes.{kerberos_time};
ghost use Rattle.krb_codec.specs.Reading.{reads};
ghost use Rattle.krb_codec.specs.Sinks.{puts};

use crate::element::Element;
use crate::fault::ReadError;
use crate::reading::Read;
use crate::region::Region;
use crate::sink::Sink;
use crate::tag::GENERALIZED_TIME;
use crate::time::{seconds_to_time, time_in};
use crate::writing::Write;
use std::alloc::{AllocError, Global};

/// Seconds since 1970-01-01T00:00:00Z; those of the years 0 to 9999 can be written.
#[derive(Clone, Copy, PartialEq, Eq)]
pub struct KerberosTime(pub i64);

impl Element for KerberosTime {
    ghost shape = { kerberos_time };

    ghost value = { λ t. t.0 };

    ghost legal = { refl };
}

impl Read for KerberosTime {
    #[tactic(auto, unfolding(crate::specs::Reading::reads))]
    fn read(_alloc: Global, region: &mut Region<'_>) -> Result<KerberosTime, ReadError> {
        let place = region.place();
        let content = region.element(GENERALIZED_TIME)?;
        Ok(KerberosTime(time_in(place, content.rest())?))
    }
}

impl Write for KerberosTime {
    #[tactic(auto, unfolding(crate::specs::Sinks::puts))]
    fn write<S: Sink>(&self, sink: &mut S) -> Result<(), AllocError> {
        match seconds_to_time(self.0) {
            Some(text) => sink.put(GENERALIZED_TIME, &text, true),
            None => sink.put(GENERALIZED_TIME, &[], false),
        }
    }
}
