//! What holds of each connection, whatever happens to it and in whatever order.
ghost use Rattle.chpw_connection.specs.Lives.{Orderly, Final};
ghost use Rattle.chpw_connection.specs.Times.{AllEndInTime, AllGoOnByTheirWorker, AllGoOnReleased, NoneStays};
ghost use Rattle.chpw_connection.specs.Unchanged.{ChangesNoAnswer, SeesOrdinary};

/// The messages that go to workers are those that came, in order, cut by their lengths, each once; the bytes written
/// are the replies to them, each to its own message, in order, each once; no message is handed out after the 65,536th.
#[tactic(auto, using(crate::proofs::LifeLemmas::orderly))]
pub fn in_order()
    ensures { Orderly }
{}

/// After its end nothing of a connection is handed out or written.
#[tactic(auto, using(crate::proofs::FinalLemmas::ends_for_good))]
pub fn at_its_end()
    ensures { Final }
{}

/// A connection in any stage that waits neither for a worker's reply nor for a confirmation doesn't stay for ever: from
/// some moment on its time is up, and `pass` then ends it.
#[tactic(auto, using(crate::proofs::TimeLemmas::all_end_in_time))]
pub fn in_time()
    ensures { AllEndInTime }
{}

/// A connection that a worker has goes on, or ends, by the worker's reply, deferred or not, and by the worker's word
/// that there is none.
#[tactic(auto, using(crate::proofs::TimeLemmas::all_go_on_by_their_worker))]
pub fn by_its_worker()
    ensures { AllGoOnByTheirWorker }
{}

/// A connection whose reply is deferred goes on once that is released, and is then timed.
#[tactic(auto, using(crate::proofs::TimeLemmas::all_go_on_released))]
pub fn by_its_release()
    ensures { AllGoOnReleased }
{}

/// There is no other connection but those that have ended: so none stays for ever.
#[tactic(auto, using(crate::proofs::TimeLemmas::none_stays))]
pub fn in_each_stage()
    ensures { NoneStays }
{}

/// Waiting for the KDC changes no answer: whatever happens to a connection whose replies wait until it has confirmed
/// their changes, what comes, is handed to workers, replied and written, and its stage, is as it would be if each
/// deferred reply were an ordinary one.
#[tactic(auto, using(crate::proofs::UnchangedLemmas::changes_no_answer, crate::proofs::UnchangedLemmas::sees_ordinary))]
pub fn unchanged_by_waiting()
    ensures unchanged { ChangesNoAnswer }
    ensures ordinary { SeesOrdinary }
{}
