//! The keys of a new password, derived before the decision.
ghost use Rattle.std.specs.Prelude.{◌≡◌, ◌≤◌, All, OnOk, OnErr, IfOk};
ghost use Rattle.chpw_table.specs.Completing.{completed};
ghost use Rattle.chpw_decider.specs.Deciding.{IsCompletedFrom};

use chpw_decider::Decider;
use chpw_table::{Body, Counts, Moment, Opened};
use std::alloc::{AllocError, Global};

/// The request with the new password's keys that its decision at this moment would need: none if it would be refused
/// whatever they are. For a target that isn't shown as a principal of this realm the decider isn't asked.
#[tactic(auto, using(crate::proofs::CompletingLemmas::completed_none))]
pub(crate) fn derive_wanted<D: Decider>(
    realm: &[u8],
    decider: &mut D,
    now: Moment,
    opened: Opened,
    password: &[u8],
) -> Result<Opened, AllocError>
    ensures derived { IfOk result (λ ready. IsCompletedFrom password.now opened ready) }
    ensures receipts { D.gathered decider.new ≡ D.gathered decider.old }
    ensures follows { D.follows decider.old decider.new }
{
    let mut opened = opened;
    if is_shown(realm, decider, &opened) {
        let counts = decider.missing(now, &opened);
        derive_more(&mut opened, password, &counts)?;
    }
    Ok(opened)
}

/// Derives the password's keys under these counts too, if the request has a new password.
pub(crate) fn derive_more(
    opened: &mut Opened,
    password: &[u8],
    counts: &Counts,
) -> Result<(), AllocError>
    requires positive { All (λ n. 1 ≤ n) counts.now }
    ensures value { OnOk result (opened.new ≡ completed password.now counts.now opened.old) }
    ensures unchanged { OnErr result (opened.new ≡ opened.old) }
{
    let salt = opened.salt()?;
    opened.complete(password, &salt, counts)
}

/// Whether a lookup shows the target of a new password.
fn is_shown<D: Decider>(realm: &[u8], decider: &mut D, opened: &Opened) -> bool
    ensures receipts { D.gathered decider.new ≡ D.gathered decider.old }
    ensures follows { D.follows decider.old decider.new }
{
    match &opened.body {
        Body::BadPrivate | Body::BadData => false,
        Body::Ask { .. } => {
            opened.target_realm().as_slice() == realm
                && decider.lookup(opened.target_name()).is_some()
        }
    }
}
