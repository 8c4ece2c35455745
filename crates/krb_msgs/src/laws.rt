//! Laws of the definitions alone.

ghost use Rattle.krb_msgs.specs.Laws.{ApReqsOpen, ApReqsOpenAlike, ErrorsOpen, PrivsOpen, RepliesOpen};
ghost use Rattle.krb_msgs.specs.OneAnswer.{ApReqsOpenOnce, PrivsOpenOnce, RepliesOpenOnce};
ghost use Rattle.krb_msgs.specs.StrictLaws.{LoosePrivsAreRefused, OtherPrivsOpenAlike, StrictPrivsOpen};
ghost use Rattle.krb_msgs.specs.Lengths.{ShortTextsFit, TextsAreShort};
ghost use Rattle.krb_msgs.specs.ReplyFitting.{ApRepPartsFit, ErrorsFit, PrivPartsFit};
ghost use Rattle.krb_msgs.specs.Fitting.{ApRepsFit, ApReqsFit, OpenedTimesFit, PrivsFit, TicketsAreShort, TicketsFit};

/// What is made of a request opens to that request, and what is made of a reply opens to its result code, text and
/// error code.
pub fn openings()
    ensures ap_req { ApReqsOpen }
    ensures krb_priv { PrivsOpen }
    ensures reply { RepliesOpen }
    ensures krb_error { ErrorsOpen }
{}

/// Two AP-REQs with the same sealed parts and service key open alike, where both open: what is in the clear can
/// turn one into a fault, but never into another request.
pub fn sealed_parts()
    ensures ap_req { ApReqsOpenAlike }
{}

/// A message opens to one answer, so a call's answer is the only one that its relation allows.
pub fn one_answer()
    ensures ap_req { ApReqsOpenOnce }
    ensures krb_priv { PrivsOpenOnce }
    ensures reply { RepliesOpenOnce }
{}

/// With strict messages a KRB-PRIV whose part isn't strict is refused, and each other is answered as without.
pub fn strict_messages()
    ensures loose { LoosePrivsAreRefused }
    ensures strict { StrictPrivsOpen }
    ensures others { OtherPrivsOpenAlike }
{}

/// A text is no longer than a sum over its value, and a value in its range whose text is short
/// fits.
pub fn lengths()
    ensures short { TextsAreShort }
    ensures fits { ShortTextsFit }
{}

/// Messages of short parts fit, and the times of an opened request can be written: this meets the conditions of the
/// makers.
pub fn messages_fit()
    ensures ticket { TicketsFit }
    ensures ticket_length { TicketsAreShort }
    ensures ap_req { ApReqsFit }
    ensures ap_rep { ApRepsFit }
    ensures krb_priv { PrivsFit }
    ensures times { OpenedTimesFit }
{}

/// What a service replies with fits: an AP-REP's part, a KRB-PRIV's, a KRB-ERROR.
pub fn replies_fit()
    ensures ap_rep_part { ApRepPartsFit }
    ensures krb_priv_part { PrivPartsFit }
    ensures krb_error { ErrorsFit }
{}
