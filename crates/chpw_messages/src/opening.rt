//! Opening a message (RFC 3244 section 2): its version, its frame, then its AP-REQ, then its KRB-PRIV.
ghost use Rattle.std.specs.Prelude.{IfOk};
ghost use Rattle.chpw_serve.specs.Holding.{IsInTime};
ghost use Rattle.chpw_messages.specs.Holds.{HoldsMessage, HoldsParts, HoldsUnder};

use crate::content::open_content;
use crate::opened_request::open_request;
use crate::versions::Acceptance;
use chpw_endpoints::Endpoints;
use chpw_frame::{FrameFault, Parts, split_request};
use chpw_serve::OpenResult;
use krb_msgs::{OpenError, ServiceKey, Strictness, open_ap};
use std::alloc::{AllocError, Global};

/// What a message that came over these addresses opens to, for a service that accepts these.
#[tactic(auto, using(crate::proofs::VersionLemmas::holds_refused, crate::proofs::VersionLemmas::holds_opened))]
pub(crate) fn open_under(
    alloc: Global,
    accepts: Acceptance,
    realm: &[u8],
    keys: &[ServiceKey],
    ends: Endpoints,
    message: &[u8],
) -> Result<OpenResult, AllocError>
    ensures opening { IfOk result (HoldsUnder accepts realm.now keys.now ends message.now) }
    ensures times { IfOk result IsInTime }
{
    if accepts.versions.refuses(message) {
        return Ok(OpenResult::Refused(FrameFault::BadVersion.refusal()));
    }
    open_message(alloc, accepts.messages, realm, keys, ends, message)
}

/// What a message opens to, for one that answers both versions.
fn open_message(
    alloc: Global,
    strictness: Strictness,
    realm: &[u8],
    keys: &[ServiceKey],
    ends: Endpoints,
    message: &[u8],
) -> Result<OpenResult, AllocError>
    ensures opening { IfOk result (HoldsMessage strictness realm.now keys.now ends message.now) }
    ensures times { IfOk result IsInTime }
{
    match split_request(message) {
        Err(fault) => Ok(OpenResult::Refused(fault.refusal())),
        Ok(parts) => open_parts(alloc, strictness, realm, keys, ends, parts),
    }
}

/// What the parts of a message open to.
fn open_parts(
    alloc: Global,
    strictness: Strictness,
    realm: &[u8],
    keys: &[ServiceKey],
    ends: Endpoints,
    parts: Parts<'_>,
) -> Result<OpenResult, AllocError>
    ensures opening { IfOk result (HoldsParts strictness realm.now keys.now ends
        parts.entry.version parts.entry.ap.now parts.entry.tail.now) }
    ensures times { IfOk result IsInTime }
{
    match open_ap(alloc, realm, keys, parts.ap, ends.peer) {
        Err(OpenError::Memory) => Err(AllocError),
        Err(OpenError::Fault(fault)) => Ok(OpenResult::Refused(fault.refusal())),
        Ok(opened) => {
            let content = open_content(
                alloc,
                strictness,
                ends.local,
                realm,
                parts.version,
                &opened,
                parts.tail,
            )?;
            Ok(OpenResult::Opened(open_request(alloc, ends.local, opened, content)?))
        }
    }
}
