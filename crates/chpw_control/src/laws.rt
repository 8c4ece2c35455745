//! What holds of all that can happen on a connection, and of how an answer ends.
ghost use Rattle.chpw_control.specs.CallerLives.{Served};
ghost use Rattle.chpw_control.specs.Connections.{Once, Piecewise, OnlyItsLine};
ghost use Rattle.chpw_control.specs.Endings.{CutOff, EndsBadly, EndsWell};
ghost use Rattle.chpw_control.specs.TakenOrders.{StaysForItsAnswer};

/// A connection gives at most one command, or one fault.
#[tactic(auto, using(crate::proofs::ConnectionLemmas::once))]
pub fn one_command()
    ensures { Once }
{}

/// The pieces in which the bytes come make no difference.
#[tactic(auto, using(crate::proofs::ConnectionLemmas::piecewise))]
pub fn in_any_pieces()
    ensures { Piecewise }
{}

/// A command comes only from its whole line.
#[tactic(auto, using(crate::proofs::ConnectionLemmas::only_its_line))]
pub fn only_its_line()
    ensures { OnlyItsLine }
{}

/// A caller has at most one answer, of which what is written is the beginning; and no command is carried out for it but
/// the one of its own whole line, once.
#[tactic(auto, using(crate::proofs::CallerLemmas::all_served))]
pub fn one_answer()
    ensures { Served }
{}

/// A caller whose command is being carried out is not finished before it has its answer, even if it has hung up: its
/// slot is given to nobody else meanwhile.
#[tactic(auto, using(crate::proofs::TakenOrderLemmas::stays))]
pub fn stays_for_its_answer()
    ensures { StaysForItsAnswer }
{}

/// An answer to a command that was carried out ends with `ok`.
#[tactic(auto, using(crate::proofs::EndingLemmas::ends_well))]
pub fn done()
    ensures { EndsWell }
{}

/// It doesn't if it is cut off.
#[tactic(auto, using(crate::proofs::EndingLemmas::cut_off))]
pub fn cut_short()
    ensures { CutOff }
{}

/// An answer with an error doesn't, nor any beginning of it.
#[tactic(auto, using(crate::proofs::EndingLemmas::ends_badly))]
pub fn not_done()
    ensures { EndsBadly }
{}
