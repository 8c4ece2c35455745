//! Layer: standards and codecs. Touches: memory and the streams handed in. Called by: chpw_serve, chpw_messages and others above.
//!
//! The framing of RFC 3244 section 2: requests, replies, messages over TCP, and the change that a request asks for.
#![tactic(auto)]

mod change_data;
mod fault;
pub mod laws;
mod parts;
mod reply;
mod request;
mod stream;

pub use change_data::{ChangeData, ChangeFault, ChangeTarget, read_change_data};
pub use fault::FrameFault;
pub use parts::Parts;
pub use reply::{REPLY_VERSION, join_reply, split_reply};
pub use request::{
    OLD_REQUEST_VERSION, REQUEST_VERSION, REQUEST_VERSIONS, join_old_request, join_request,
    split_request,
};
pub use stream::{LONGEST_MESSAGE, MAX_READS, TcpOutcome, WriteFault, read_tcp, write_tcp};
