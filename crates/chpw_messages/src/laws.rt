//! Laws of the definitions alone, and worked replies.
ghost use Rattle.std.specs.Prelude.{List};
ghost use Rattle.chpw_table.specs.declared.history.Receipt.{Receipt};
ghost use Rattle.chpw_messages.specs.ChangedVersions.{FlippedSetsAreBadData, FlippedSetsChangeNoKey, SetsAreTargeted};
ghost use Rattle.chpw_messages.specs.Laws.{FramesOpen, PartsOpen};
ghost use Rattle.chpw_messages.specs.OneOpening.{MessagesOpenOnce};
ghost use Rattle.chpw_messages.specs.Prefixes.{KrbPrivsFollow, PrefixesOpen};
ghost use Rattle.chpw_messages.specs.RepliesOpen.{ErrorFramesOpen, PrivateFramesOpen};
ghost use Rattle.chpw_messages.specs.StrictLaws.{LooseMessagesAreBadPrivate, OtherMessagesOpenAlike, StrictMessagesOpen};
ghost use Rattle.chpw_messages.specs.VersionLaws.{AllStay, ItsOwnStay, MessagesOpenOnceUnder, OthersAddNothing, OthersAreRefused, RequestsAreOfIt};
ghost use Rattle.chpw_messages.specs.WorkedReplies.{MalformedReply, VersionReply, TooLongReply};

use chpw_decider::Decider;

/// The two parts of a request for a password change, made from their records, open to that request, in either version, but
/// in the earlier one only if the password is no ChangePasswdData with a target; and parts in a frame open as they do.
pub fn openings()
    ensures parts { PartsOpen }
    ensures frames { FramesOpen }
{}

/// A message opens to one answer: one that is refused opens to no request, and one that opens asks one thing.
pub fn one_opening()
    ensures message { MessagesOpenOnce }
{}

/// A service that answers requests of RFC 3244 alone answers a message of another version `bad version`, so that none of
/// its requests is of another; it opens one of that version as a service that answers both does, and each message to one
/// answer.
pub fn versions()
    ensures refused { OthersAreRefused }
    ensures requests { RequestsAreOfIt }
    ensures own { ItsOwnStay }
    ensures both { AllStay }
    ensures once { MessagesOpenOnceUnder }
{}

/// A service whose messages have to be strict opens a message whose KRB-PRIV isn't as a request with a bad KRB-PRIV. A
/// request that has anything else asks the same of a service whose messages needn't be, and a message without such a
/// KRB-PRIV opens alike to both.
pub fn strict_messages()
    ensures loose { LooseMessagesAreBadPrivate }
    ensures strict { StrictMessagesOpen }
    ensures others { OtherMessagesOpenAlike }
{}

/// Whoever decides for a service that answers requests of RFC 3244 alone has the same receipts after a message of another version: it adds no entry.
pub fn other_versions<D: Decider>()
    ensures adds { (decider : D) (receipts : List Receipt) → OthersAddNothing (D.may_be_full decider receipts) }
{}

/// A request of RFC 3244 that names a target changes no key if its version is changed into that of the earlier protocol:
/// the same bytes are refused, or are the same request with bad data, and that leaves the keys of all principals.
pub fn changed_versions()
    ensures targets { SetsAreTargeted }
    ensures keys { FlippedSetsChangeNoKey }
    ensures same { FlippedSetsAreBadData }
{}

/// A reply opens, for the client that asked, to the result code, the text and the error code that it was made from.
pub fn replies_open()
    ensures krb_error { ErrorFramesOpen }
    ensures private { PrivateFramesOpen }
{}

/// A request whose tail is a KRB-PRIV, cut short with its length field set to match, is no other request: it has a bad
/// length or bad parts, or is the same with bad data and no stamp. The tail is a KRB-PRIV unless the request is bad
/// data.
pub fn prefixes()
    ensures message { PrefixesOpen }
    ensures tail { KrbPrivsFollow }
{}

/// The replies to a message with an empty AP-REQ, to one of another version, and to one that is too
/// long.
#[tactic(auto, using(crate::proofs::Worked::malformed_reply, crate::proofs::Worked::version_reply, crate::proofs::Worked::too_long_reply))]
pub fn replies()
    ensures malformed { MalformedReply }
    ensures version { VersionReply }
    ensures too_long { TooLongReply }
{}
