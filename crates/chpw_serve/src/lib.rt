//! Layer: answering. Touches: the streams, the clock and the words handed in. Called by: chpw_workers and others above.
//!
//! How a message is answered, and the service on one stream: message after message is read, answered and written.
//! Who opens and makes messages, who decides, who hears of it and who holds a worker are handed in.
#![tactic(auto)]

mod answering;
mod completing;
mod deciding;
mod draws;
mod gate;
mod hearing;
mod known;
pub mod laws;
mod messages;
mod observer;
mod serving;
mod serving_alone;
mod worker_words;

pub use answering::{MessageReply, answer, answer_message};
pub use draws::{Clock, Drawing, Words, next_words};
pub use gate::{Gate, NoGate, Spot};
pub use messages::{Messages, OpenRequest, OpenResult, Seal};
pub use observer::{Observer, UpdateObserver};
pub use serving::{Ended, MAX_MESSAGES, serve_stream};
pub use serving_alone::serve_alone;
pub use worker_words::WorkerWords;
