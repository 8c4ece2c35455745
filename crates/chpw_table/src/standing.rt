//! What stays the same while the service runs, and what is refused by that alone.
ghost use Rattle.std.specs.Prelude.{◌≡◌, ◌||◌, int_le, IfOk};
ghost use Rattle.chpw_table.specs.Requests.{digest_of};
ghost use Rattle.chpw_table.specs.Decision.{is_denied, needs_initial};
ghost use Rattle.chpw_table.specs.Standing.{is_past as is_past_spec, is_too_late as is_too_late_spec, is_bad, is_weak as is_weak_spec, refused_anyway};

use crate::digest::Digest;
use crate::request::{Body, Opened};
use crate::times::{Moment, is_later};
use chpw_rules::{Items, Policy, Rules};
use std::alloc::AllocError;
use std::marker::Model;

/// What no event changes of a table: the realm, the policy, the rules, and until when the service is quiet. Most
/// refusals follow from them and the moment, so a copy finds those without the table.
#[derive(Drop)]
pub struct StandingRules {
    realm: Items<u8>,
    policy: Policy,
    rules: Rules,
    quiet_until: i64,
}

impl Model for StandingRules {
    ghost use Rattle.chpw_table.specs.State.{Fixed};

    ghost Value = { Fixed };

    ghost view = { λ r. record {
      realm = r.realm;
      policy = r.policy;
      rules = r.rules;
      quiet_until = r.quiet_until;
    } };
}

impl StandingRules {
    pub(crate) fn of(
        realm: Items<u8>,
        policy: Policy,
        rules: Rules,
        quiet_until: i64,
    ) -> StandingRules
        ensures value { result ≡ record {
          realm = realm;
          policy = policy;
          rules = rules;
          quiet_until = quiet_until;
        } }
    {
        StandingRules {
            realm,
            policy,
            rules,
            quiet_until,
        }
    }

    // The same, quiet until then.
    pub(crate) fn quiet(self, quiet_until: i64) -> StandingRules
        ensures value { result ≡ record self { quiet_until = quiet_until } }
    {
        StandingRules {
            quiet_until,
            ..self
        }
    }

    /// A copy in new memory, from the same allocator.
    pub fn clone(&self) -> Result<StandingRules, AllocError>
        ensures value { IfOk result (λ copy. copy ≡ self.now) }
    {
        Ok(StandingRules {
            realm: self.realm.clone()?,
            policy: self.policy,
            rules: self.rules.clone()?,
            quiet_until: self.quiet_until,
        })
    }

    /// Whether a decision at this moment refuses the request before it looks at keys of the new password, whatever else
    /// the table holds. If false, the decision may still refuse: for the ids used, for the keys held, or because the
    /// request is too early for the table's clock, which may be later than the moment.
    pub fn refuse(&self, now: Moment, opened: &Opened) -> bool
        ensures value { result ≡ refused_anyway self.now now opened.now }
    {
        self.are_quiet(opened)
            || is_too_late(now.seconds, opened)
            || opened.invalid
            || self.refuse_body(opened)
    }

    // The KRB-PRIV has no new password, or none that this client may set, or a weak one.
    fn refuse_body(&self, opened: &Opened) -> bool
        ensures value { result ≡ (is_bad opened.now.body || is_denied self.now opened.now
            || needs_initial self.now opened.now || is_weak_spec self.now.policy (digest_of opened.now)) }
    {
        match &opened.body {
            Body::BadPrivate | Body::BadData => true,
            Body::Ask { digest, .. } => {
                self.deny(opened) || self.need_initial(opened) || is_weak(self.policy, digest)
            }
        }
    }

    // Whether the service is quiet at the authenticator's time.
    pub(crate) fn are_quiet(&self, opened: &Opened) -> bool
        ensures value { result ≡ int_le opened.now.ctime self.now.quiet_until }
    {
        opened.ctime <= self.quiet_until
    }

    pub(crate) fn deny(&self, opened: &Opened) -> bool
        ensures value { result ≡ is_denied self.now opened.now }
    {
        opened.crealm != self.realm
            || *opened.target_realm() != self.realm
            || !(opened.is_change() || self.rules.allows(&opened.client, opened.target_name()))
    }

    pub(crate) fn need_initial(&self, opened: &Opened) -> bool
        ensures value { result ≡ needs_initial self.now opened.now }
    {
        !opened.initial && (opened.is_change() || self.policy.set_needs_initial)
    }

    pub(crate) fn policy(&self) -> Policy
        ensures value { result ≡ self.now.policy }
    {
        self.policy
    }

    pub(crate) fn realm(&self) -> &[u8]
        ensures value { result.now ≡ self.now.realm }
    {
        self.realm.as_slice()
    }

    pub(crate) fn quiet_until(&self) -> i64
        ensures value { result ≡ self.now.quiet_until }
    {
        self.quiet_until
    }
}

// Whether this time is too late for the authenticator, the ticket or the KRB-PRIV.
fn is_too_late(time: i64, opened: &Opened) -> bool
    ensures value { result ≡ is_too_late_spec time opened.now }
{
    is_later(time, opened.ctime) || is_later(time, opened.ends) || is_past(time, opened.stamp)
}

// Whether there is a timestamp, and the time is later than it by more than the skew.
fn is_past(time: i64, stamp: Option<i64>) -> bool
    ensures value { result ≡ is_past_spec time stamp }
{
    match stamp {
        None => false,
        Some(stamp) => is_later(time, stamp),
    }
}

fn is_weak(policy: Policy, digest: &Digest) -> bool
    ensures value { result ≡ is_weak_spec policy digest.now }
{
    digest.length < policy.min_length || digest.classes < policy.min_classes
}
