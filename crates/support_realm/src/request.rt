//! A principal's request.
use crate::realm::bytes;
use chpw_rules::Name;
use chpw_table::{Body, Digest, Moment, Opened};
use std::alloc::{AllocError, Global};

/// When it asks.
pub const NOW: Moment = Moment {
    seconds: 1000,
    micros: 0,
};

/// The new password that it asks for.
pub const PASSWORD: &[u8] = b"New-pass2";

/// A client asks at `NOW`, with these microseconds, for a new password of its own.
pub fn change(
    alloc: Global,
    client: Name,
    cusec: u32,
    digest: Digest,
) -> Result<Opened, AllocError> {
    Ok(Opened {
        crealm: bytes(alloc, b"EXAMPLE.COM")?,
        client,
        initial: true,
        invalid: false,
        starts: 0,
        ends: 9000,
        ctime: NOW.seconds,
        cusec,
        stamp: None,
        body: Body::Ask {
            target: None,
            digest,
        },
    })
}
