//! What holds of all that is said and heard, in any order.
ghost use Rattle.chpw_kdc.specs.Spelling.{LinesDiffer, ReadsBack};
ghost use Rattle.chpw_kdc.specs.Lists.{ListsPutRight};
ghost use Rattle.chpw_kdc.specs.Runs.{FaultsChangeNothing, FewAreAsked, LinesAreShort, NeverFalls, OneAtATime, Piecewise};
ghost use Rattle.chpw_kdc.specs.Runs.{PutsAreTold, PutsComeFirst, Truthful, UpdatesAreGrounded};

/// Each put is of a key that was reported for that name, under its version.
#[tactic(auto, using(crate::proofs::ToldLemmas::puts_are_told))]
pub fn only_what_was_told()
    ensures { PutsAreTold }
{}

/// A ticket is confirmed only if the put of its own change's key was answered by a whole line, over the connection that it was
/// asked on.
#[tactic(auto, using(crate::proofs::TruthLemmas::truthful))]
pub fn only_what_was_answered()
    ensures { Truthful }
{}

/// What was confirmed stays confirmed.
#[tactic(auto, using(crate::proofs::TruthLemmas::never_falls))]
pub fn never_less()
    ensures { NeverFalls }
{}

/// The desk is asked only what the agent said over the connection that there is.
#[tactic(auto, using(crate::proofs::GroundLemmas::updates_are_grounded))]
pub fn only_what_the_kdc_says()
    ensures { UpdatesAreGrounded }
{}

/// A whole list puts right each name in which table and KDC differ, once: the KDC's newer key is for the desk to adopt; for one of
/// an older version, or another key of the same one, the table's is put, unless a change has it on its way; and the names that it
/// lacks are asked for alone.
pub fn each_difference_once()
    ensures { ListsPutRight }
{}

/// No more names are asked for alone than may be removed.
#[tactic(auto, using(crate::proofs::GroundLemmas::few_are_asked))]
pub fn never_in_mass()
    ensures { FewAreAsked }
{}

/// After a loss or a fault no key and no confirmation is another.
pub fn nothing_by_a_fault()
    ensures { FaultsChangeNothing }
{}

/// One request is under way at a time.
#[tactic(auto, using(crate::proofs::FaultLemmas::one_at_a_time))]
pub fn one_at_a_time()
    ensures { OneAtATime }
{}

/// Puts that wait are asked before anything else, after a loss too; a list is asked for when nothing else is to be done.
#[tactic(auto, using(crate::proofs::FaultLemmas::puts_come_first))]
pub fn puts_come_first()
    ensures { PutsComeFirst }
{}

/// The pieces in which the agent's bytes come make no difference.
#[tactic(auto, using(crate::proofs::FaultLemmas::piecewise))]
pub fn in_any_pieces()
    ensures { Piecewise }
{}

/// An answer is read as it is spelled.
#[tactic(auto, using(crate::proofs::SpellingLemmas::reads_back))]
pub fn read_as_spelled()
    ensures { ReadsBack }
{}

/// A request's line is that of no other request.
#[tactic(auto, using(crate::proofs::SpellingLemmas::lines_differ))]
pub fn a_line_for_each()
    ensures { LinesDiffer }
{}

/// No request has more than 1,024 bytes, with its newline.
#[tactic(auto, using(crate::proofs::ShortLemmas::lines_are_short))]
pub fn short_lines()
    ensures { LinesAreShort }
{}
