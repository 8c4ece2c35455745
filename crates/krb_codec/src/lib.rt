//! Layer: standards and codecs. Touches: memory. Called by: krb_der and others above.
//!
//! Elements of DER (X.690) in Kerberos messages (RFC 4120 sections 5.2 and 5.2.8): how numbers, strings, flags, times,
//! lists and the fields of a record are read, written and measured, and which bytes spell which value.
//!
//! A record of the crates above is a list of fields (`Application<14, (Required<0, i32>, ..)>`), by which it is read,
//! written and measured alike.
#![tactic(auto)]

mod bits;
mod element;
mod fault;
mod fields;
mod flags;
mod integer;
mod kerberos_time;
pub mod laws;
mod layout;
mod list;
mod numbers;
mod octets;
mod reading;
mod region;
mod sink;
mod tag;
mod time;
mod writing;

pub use element::Element;
pub use fault::{DerFault, FaultKind, ReadError};
pub use fields::{Fields, Optional, Required};
pub use flags::KerberosFlags;
pub use kerberos_time::KerberosTime;
pub use layout::{Application, ExtensibleSequence, Layout, Sequence};
pub use list::SequenceOf;
pub use numbers::{Microseconds, SeqNumber};
pub use octets::{Bytes, GeneralString, OctetString};
pub use reading::{Read, read_all};
pub use region::Region;
pub use sink::Sink;
pub use time::{seconds_to_time, time_to_seconds};
pub use writing::{Write, fits, text_len, write_all};
