//! What a client asks.
use chpw_rules::Name;
use chpw_table::Moment;
use krb_msgs::ServiceKey;

/// What a client asks, and what it makes its ticket with.
#[derive(Clone, Copy, Drop)]
pub(crate) struct RequestTerms<'a> {
    /// The realm of client, target and service.
    pub realm: &'a [u8],
    /// The key that the ticket is sealed under.
    pub service: &'a ServiceKey,
    /// The client's time, and the ticket's authtime.
    pub now: Moment,
    pub client: &'a Name,
    /// The new password.
    pub password: &'a [u8],
    /// Whose password it is; if absent, the client's.
    pub target: Option<&'a Name>,
    /// Whether the ticket is flagged initial.
    pub initial: bool,
    /// Whether it asks in the earlier protocol, which has no target.
    pub old: bool,
}
