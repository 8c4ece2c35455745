//! What five records share: bytes, and the number of their type.

use krb_codec::{OctetString, Required, Sequence};

/// The number of a type, and bytes of that type.
pub type TypedOctets = Sequence<(Required<0, i32>, Required<1, OctetString>)>;
