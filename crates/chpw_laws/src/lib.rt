//! Layer: answering. Touches: nothing. Called by: nobody, its clauses are statements.
//!
//! Laws of the whole machine, over the definitions alone: how long an old password is refused, and its numbers in digits.
#![tactic(auto)]

pub mod laws;
