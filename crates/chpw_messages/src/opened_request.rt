//! A request that opened, as it is judged and replied to.
ghost use Rattle.std.specs.Prelude.{◌≡◌, ℤ, Option, IfOk};
ghost use Rattle.chpw_serve.specs.Requests as requests;
ghost use Rattle.chpw_serve.specs.Holding.{IsOpenRequest};
ghost use Rattle.chpw_messages.specs.Opening.{request_of, seal_of};
ghost use Rattle.chpw_messages.specs.Holds.{IsHeld};

use crate::content::Content;
use crate::names::name_of;
use chpw_rules::Items;
use chpw_serve::{OpenRequest, Seal};
use chpw_table::Opened;
use krb_msgs::ApOpened;
use krb_protocol::{TICKET_INITIAL, TICKET_INVALID};
use std::alloc::{AllocError, Global};
use std::net::IpAddr;

/// The request of an AP-REQ and the KRB-PRIV after it, which were sent to this address.
pub(crate) fn open_request(
    alloc: Global,
    local: IpAddr,
    opened: ApOpened,
    content: Content,
) -> Result<OpenRequest, AllocError>
    ensures value { IfOk result (λ i. (c : requests.Content) (stamp : Option ℤ)
        → IsHeld c stamp content → IsOpenRequest (request_of local opened stamp c) i) }
{
    let seal = seal_of(local, &opened);
    let Content {
        body,
        password,
        stamp,
    } = content;
    let opened = Opened {
        initial: opened.flags.is_set(TICKET_INITIAL),
        invalid: opened.flags.is_set(TICKET_INVALID),
        starts: opened.starts.0,
        ends: opened.ends.0,
        ctime: opened.ctime.0,
        cusec: opened.cusec.0,
        client: name_of(alloc, opened.cname)?,
        crealm: Items::of(opened.crealm.into_vec()),
        stamp,
        body,
    };
    Ok(OpenRequest {
        opened,
        password,
        seal,
    })
}

/// The keys, the times and the address that the reply is made with.
fn seal_of(local: IpAddr, opened: &ApOpened) -> Seal
    ensures value { result ≡ seal_of local opened.now }
{
    Seal {
        session: opened.session,
        subkey: opened.subkey,
        ctime: opened.ctime.0,
        cusec: opened.cusec.0,
        address: local,
    }
}
