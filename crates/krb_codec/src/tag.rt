//! Tags: the first byte of an element (X.690 section 8.1.2).

/// INTEGER (X.690 section 8.3).
pub const INTEGER: u8 = 0x02;

/// BIT STRING (section 8.6).
pub const BIT_STRING: u8 = 0x03;

/// OCTET STRING (section 8.7).
pub const OCTET_STRING: u8 = 0x04;

/// GeneralizedTime (sections 8.25 and 11.7).
pub const GENERALIZED_TIME: u8 = 0x18;

/// GeneralString (section 8.23).
pub const GENERAL_STRING: u8 = 0x1b;

/// SEQUENCE and SEQUENCE OF (sections 8.9 and 8.10).
pub const SEQUENCE: u8 = 0x30;

/// An application tag's number is added to this.
pub const APPLICATION: u8 = 0x60;

/// A context tag's number is added to this.
pub const CONTEXT: u8 = 0xa0;
