//! What holds of each connection, whatever happens to it and in whatever order, of the queues, of the counts, and of what is
//! answered again.
ghost use Rattle.chpw_connections.specs.Laws.{GivenAgain, IsRemembered};

pub use chpw_connection::laws::{
    at_its_end, by_its_release, by_its_worker, in_each_stage, in_order, in_time,
    unchanged_by_waiting,
};
pub use chpw_slots::laws::{counted_once, first_in_first_out};

/// What is given again was given to the very bytes, to the same address and port, less than five seconds ago.
#[tactic(auto, using(crate::proofs::AnswerLemmas::given_again))]
pub fn only_what_was_given()
    ensures { GivenAgain }
{}

/// Within five seconds an answer is given again, unless 1,024 others have been given since, or it holds more than 4 MiB
/// together with those.
#[tactic(auto, using(crate::proofs::AnswerLemmas::is_remembered))]
pub fn remembered()
    ensures { IsRemembered }
{}
