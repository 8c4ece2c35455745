//! The laws, each a function that does nothing.
ghost use Rattle.chpw_laws.specs.OldPasswords.{MakesItsKeys, RefusedWhileCompared, RaiseComparesTheSame};
ghost use Rattle.chpw_laws.specs.OldPasswords.{LiftComparesTheSame, UpdateLeavesOthers};
ghost use Rattle.chpw_laws.specs.OldPasswords.{RefusedWhileItsKeyIsCompared, RefusedInLaterHistories, ComparedUntilDepth, RefusedUntilDepth};
ghost use Rattle.chpw_laws.specs.OldPasswords.{ComparedNoLonger, DepthOthersBetween};
ghost use Rattle.chpw_laws.specs.Adoptions.{AdoptedIsCompared, AdoptedIsRefused};
ghost use Rattle.chpw_laws.specs.WithoutUpdates.{OnlyChangesBringKeys, ComparedUntilDepthOfChanges, RefusedUntilDepthOfChanges};
ghost use Rattle.chpw_laws.specs.WithoutUpdates.{ComparedNoLongerThanChanges, DepthChangesBetween, OneIsEnough, OnlyChangesBringKeysInRuns};
ghost use Rattle.chpw_laws.specs.Messages.{OpensForIt, RefusedAsJudged};
ghost use Rattle.chpw_laws.specs.Restarts.{RefusedOverRestarts, AdoptedIsRefusedOverRestarts};
ghost use Rattle.chpw_laws.specs.Seconds.{PassesIfNear, Apart300IsIn, Apart301IsOut, MicrosAreNotRead, LaterIsBy300};
ghost use Rattle.chpw_laws.specs.Seconds.{QuietIs300, QuietNever, LastSecondIsOf9999};
ghost use Rattle.chpw_laws.specs.RowNumbers.{ErrorRows, PrivateRows, RaiseRows, UpdateRows};
ghost use Rattle.chpw_laws.specs.RefusalNumbers.{FrameNumbers, ApNumbers, RoomNumbers};
ghost use Rattle.std.specs.Prelude.{◌≡◌, pos};
ghost use Rattle.chpw_table.specs.declared.times.TheConstants.{CLOCK_SKEW, LAST_SECOND};
ghost use Rattle.chpw_table.specs.declared.updating.KdcUpdate.{KdcUpdate};

use krb_keys::laws::published_values;

/// No old password comes back too soon. An accepted change makes the keys of its password (RFC 3962 section 4). A
/// password is refused, whoever asks for it and whenever, while one of its keys is among the `depth` newest of its
/// principal, under whichever version; so, once it was accepted, until `depth` further keys of that principal came in
/// front, by accepted changes or adopted from the KDC, also over restarts, unless the principal was removed meanwhile.
/// Between two accepted changes to one password at least `depth` others came in front, unless it was removed.
///
/// A new password is compared with each key under that key's own iteration count. A request that lacks a key under one
/// of these counts isn't decided (`missing`), and so isn't accepted. So a raise of the count, wherever it is in the
/// history, changes nothing of this; nor does a lift of a version, or an update of another principal. The salt is the
/// principal's realm and name (RFC 4120 section 4); a request for another realm is denied. With a `depth` of 0 nothing is
/// compared.
pub fn old_passwords()
    ensures makes { MakesItsKeys }
    ensures compared { RefusedWhileCompared }
    ensures raise { RaiseComparesTheSame }
    ensures lift { LiftComparesTheSame }
    ensures others { UpdateLeavesOthers }
    ensures held { RefusedWhileItsKeyIsCompared }
    ensures later { RefusedInLaterHistories }
    ensures until { ComparedUntilDepth }
    ensures refused { RefusedUntilDepth }
    ensures no_longer { ComparedNoLonger }
    ensures restarts { RefusedOverRestarts }
    ensures opens { OpensForIt }
    ensures judged { RefusedAsJudged }
    ensures between { DepthOthersBetween }
{}

/// A password that was set at the KDC is refused as long as one that was changed to here: a key that was adopted is among
/// those that a new password is compared with until `depth` further keys came in front, also over restarts, unless the
/// principal was removed meanwhile; and until then a password is refused whose key it is.
pub fn adopted_passwords()
    ensures until { AdoptedIsCompared }
    ensures refused { AdoptedIsRefused }
    ensures restarts { AdoptedIsRefusedOverRestarts }
{}

/// Where the KDC says nothing, the keys that come in front are those of accepted changes alone, no principal is removed,
/// and each key is compared with as it was made. So the laws hold with accepted changes counted, and without a premise.
pub fn without_updates()
    ensures only { OnlyChangesBringKeys }
    ensures until { ComparedUntilDepthOfChanges }
    ensures refused { RefusedUntilDepthOfChanges }
    ensures no_longer { ComparedNoLongerThanChanges }
    ensures between { DepthChangesBetween }
    ensures restarts { OnlyChangesBringKeysInRuns }
{}

/// Of `depth` other changes no more need come between two accepted changes to one password: with a depth of 1 one is
/// enough, as in a history with the password of RFC 3962 appendix B.
pub fn one_between()
    ensures enough { OneIsEnough }
{
    published_values();
}

/// The skew that clocks may have is 300 seconds, either way, the five minutes that RFC 4120 section 3.2.3 has for an
/// example: for the authenticator's time, the ticket's times and the KRB-PRIV's timestamp. A client's time 300 seconds
/// from the clock is in, 301 seconds from it is out; microseconds aren't read. A start that is quiet for 300 seconds
/// refuses each client's time up to then. The last second of a moment is that of 9999-12-31T23:59:59Z, the last that a
/// KerberosTime can write (RFC 4120 section 5.2.3).
pub fn times()
    ensures skew { CLOCK_SKEW ≡ pos 300 }
    ensures near { PassesIfNear }
    ensures inside { Apart300IsIn }
    ensures outside { Apart301IsOut }
    ensures micros { MicrosAreNotRead }
    ensures later { LaterIsBy300 }
    ensures quiet { QuietIs300 }
    ensures never { QuietNever }
    ensures last { LAST_SECOND ≡ pos 253402300799 }
    ensures year_9999 { LastSecondIsOf9999 }
{}

/// The numbers that replies carry, those of each row of the decision and of each fault of a frame and of an AP-REQ: the
/// result codes 0 to 7 of RFC 3244 section 2, and error codes of RFC 4120 section 7.5.9. An administrator is told of a
/// raise by result codes, too, and so is whoever reads of an update from the KDC.
pub fn replies()
    ensures errors { ErrorRows }
    ensures privates { PrivateRows }
    ensures raises { RaiseRows }
    ensures updates { (u : KdcUpdate) → UpdateRows u }
    ensures frames { FrameNumbers }
    ensures requests { ApNumbers }
    ensures room { RoomNumbers }
{}
