//! The result of a message. It has only names, numbers and a reply's text: no password, no key and no byte of a
//! message.
ghost use Rattle.std.specs.Prelude.{◌≡◌};
ghost use Rattle.std.specs.Option.{option_map};
ghost use Rattle.chpw_table.specs.Requests.{client_of};
ghost use Rattle.chpw_log.specs.Lines.{named, outcome_of, target_asked};
ghost use Rattle.chpw_log.specs.Tellings.{said};

use chpw_rules::Name;
use chpw_table::{Body, Opened, Verdict};
use krb_protocol::Refusal;

/// A principal, as a request names it.
#[derive(Clone, Copy, Drop)]
pub struct Party<'a> {
    pub realm: &'a [u8],
    pub name: &'a Name,
}

/// Who asks, and whose password is to be new.
#[derive(Clone, Copy, Drop)]
pub struct ClientAndTarget<'a> {
    pub client: Party<'a>,
    /// None if the KRB-PRIV is bad.
    pub target: Option<Party<'a>>,
}

/// The result of a message.
#[derive(Clone, Copy, Drop)]
pub enum MessageEvent<'a> {
    /// It opened, and this was decided.
    Decided {
        asked: ClientAndTarget<'a>,
        verdict: Verdict,
        /// The version of the new key, if it is known.
        kvno: Option<u32>,
    },
    /// It opened, and the history was full: it is refused with this.
    Full {
        asked: ClientAndTarget<'a>,
        refusal: &'a Refusal,
    },
    /// It didn't open, and is refused with this.
    Unopened {
        refusal: &'a Refusal,
    },
}

/// The fields for the result of a message.
#[derive(Clone, Copy, Drop)]
pub(crate) struct LogFields<'a> {
    pub(crate) client: Option<Party<'a>>,
    pub(crate) target: Option<Party<'a>>,
    /// The result code (RFC 3244 section 2), the error code (RFC 4120 section 7.5.9) and the text of the
    /// reply.
    pub(crate) code: u16,
    pub(crate) error: Option<i32>,
    pub(crate) kvno: Option<u32>,
    pub(crate) text: &'a str,
}

impl<'a> ClientAndTarget<'a> {
    /// What a request names: its client, and the client again as target if it names none. A request whose KRB-PRIV is
    /// bad has no target.
    pub fn of(opened: &'a Opened) -> ClientAndTarget<'a>
        ensures client { named result.client ≡ client_of opened.now }
        ensures target { option_map named result.target ≡ target_asked opened.now }
    {
        let client = Party {
            realm: opened.crealm.as_slice(),
            name: &opened.client,
        };
        let target = match &opened.body {
            Body::Ask {
                target: Some(target),
                ..
            } => Some(Party {
                realm: target.realm.as_slice(),
                name: &target.name,
            }),
            Body::Ask { target: None, .. } => Some(client),
            Body::BadPrivate | Body::BadData => None,
        };
        ClientAndTarget { client, target }
    }
}

impl<'a> MessageEvent<'a> {
    pub(crate) fn fields(&self) -> LogFields<'a>
        ensures value { said result ≡ outcome_of self.now }
    {
        match *self {
            MessageEvent::Decided {
                asked,
                verdict,
                kvno,
            } => LogFields {
                client: Some(asked.client),
                target: asked.target,
                code: verdict.code(),
                error: verdict.error(),
                kvno,
                text: verdict.text(),
            },
            MessageEvent::Full { asked, refusal } => LogFields {
                client: Some(asked.client),
                target: asked.target,
                code: refusal.code,
                error: Some(refusal.error),
                kvno: None,
                text: refusal.text,
            },
            MessageEvent::Unopened { refusal } => LogFields {
                client: None,
                target: None,
                code: refusal.code,
                error: Some(refusal.error),
                kvno: None,
                text: refusal.text,
            },
        }
    }
}
