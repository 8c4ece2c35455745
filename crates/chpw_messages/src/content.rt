//! The content of a KRB-PRIV (RFC 4120 section 3.5.2, RFC 3244 section 2).
ghost use Rattle.std.specs.Prelude.{◌≡◌, ◌↔◌, [], IfOk, IsTrue, option_map};
ghost use Rattle.chpw_table.specs.declared.request.Target.{Target};
ghost use Rattle.chpw_serve.specs.Requests as requests;
ghost use Rattle.chpw_serve.specs.Requests.{body_under, new_password};
ghost use Rattle.chpw_messages.specs.OldPasswords.{IsOldPassword, NamesTarget};
ghost use Rattle.chpw_messages.specs.Opening.{Asks, IsAsked, content_despite, target_in};
ghost use Rattle.chpw_messages.specs.Holds.{HoldsContent, IsHeld};

use crate::names::target_of;
use chpw_frame::{ChangeData, ChangeFault, OLD_REQUEST_VERSION, read_change_data};
use chpw_rules::Items;
use chpw_table::{Body, Counts, Digest};
use krb_der::OctetString;
use krb_msgs::{ApOpened, OpenError, PrivFault, Private, Strictness, open_priv};
use std::alloc::{AllocError, Global};
use std::net::IpAddr;

/// The content of a KRB-PRIV, as it is judged; no keys are derived yet.
#[derive(Drop)]
pub(crate) struct Content {
    pub body: Body,
    /// The new password; no bytes if none came.
    pub password: Items<u8>,
    /// Its timestamp, if it opened and has one.
    pub stamp: Option<i64>,
}

/// The content of the KRB-PRIV after an AP-REQ, in a message of this version that came to this address. A target without a realm is in this
/// realm.
pub(crate) fn open_content(
    alloc: Global,
    strictness: Strictness,
    local: IpAddr,
    realm: &[u8],
    version: u16,
    opened: &ApOpened,
    tail: &[u8],
) -> Result<Content, AllocError>
    ensures content { IfOk result (HoldsContent strictness local realm.now version opened.now tail.now) }
{
    match open_priv(alloc, strictness, local, opened, tail) {
        Ok(private) => read_content(alloc, realm, version, private),
        Err(OpenError::Memory) => Err(AllocError),
        Err(OpenError::Fault(fault)) => Ok(without_password(alloc, body_despite(fault), None)),
    }
}

/// A content without a password.
fn without_password(alloc: Global, body: Body, stamp: Option<i64>) -> Content
    ensures value { result ≡ record { body = body; password = []; stamp = stamp } }
{
    Content {
        body,
        password: Items::of(Vec::new(alloc)),
        stamp,
    }
}

/// The body of a KRB-PRIV that didn't open.
fn body_despite(fault: PrivFault) -> Body
    ensures value { (client : Target) → result ≡ body_under [] client (content_despite fault) }
{
    match fault {
        PrivFault::Malformed => Body::BadData,
        PrivFault::WrongMessage
        | PrivFault::NotSealed
        | PrivFault::WrongSeqNumber
        | PrivFault::Loose => Body::BadPrivate,
    }
}

/// The content of one that opened: in the earlier protocol the new password itself, unless that names a target; otherwise a
/// ChangePasswdData.
fn read_content(
    alloc: Global,
    realm: &[u8],
    version: u16,
    private: Private,
) -> Result<Content, AllocError>
    ensures content { IfOk result (λ h. (c : requests.Content)
        × IsAsked realm.now version private.user_bytes c × IsHeld c private.stamp h) }
{
    let Private { user_bytes, stamp } = private;
    if version == OLD_REQUEST_VERSION {
        read_old_password(alloc, realm, user_bytes, stamp)
    } else {
        read_change(alloc, realm, user_bytes, stamp)
    }
}

/// The content of a new password itself. A ChangePasswdData with a target is none: the version of a request to set
/// another's password was changed on the way.
fn read_old_password(
    alloc: Global,
    realm: &[u8],
    user_bytes: OctetString,
    stamp: Option<i64>,
) -> Result<Content, AllocError>
    ensures content { IfOk result (λ h. (c : requests.Content)
        × IsOldPassword user_bytes c × IsHeld c stamp h) }
{
    if names_target(alloc, user_bytes.as_slice())? {
        return Ok(without_password(alloc, Body::BadData, stamp));
    }
    let change = ChangeData {
        password: user_bytes,
        target: None,
    };
    change_content(alloc, realm, change, stamp)
}

/// Whether bytes are a ChangePasswdData with a targname, a targrealm, or both (RFC 3244 section 2).
fn names_target(alloc: Global, bytes: &[u8]) -> Result<bool, AllocError>
    ensures value { IfOk result (λ named. IsTrue named ↔ NamesTarget bytes.now) }
{
    match read_change_data(alloc, bytes) {
        Ok(change) => Ok(change.target.is_some()),
        Err(ChangeFault::NotChangeData) => Ok(false),
        Err(ChangeFault::RealmWithoutName) => Ok(true),
        Err(ChangeFault::Memory) => Err(AllocError),
    }
}

/// The content of a ChangePasswdData, or of bytes that are none.
fn read_change(
    alloc: Global,
    realm: &[u8],
    user_bytes: OctetString,
    stamp: Option<i64>,
) -> Result<Content, AllocError>
    ensures content { IfOk result (λ h. (c : requests.Content)
        × Asks realm.now user_bytes c × IsHeld c stamp h) }
{
    match read_change_data(alloc, user_bytes.as_slice()) {
        Ok(change) => change_content(alloc, realm, change, stamp),
        Err(ChangeFault::NotChangeData) => Ok(without_password(alloc, Body::BadData, stamp)),
        Err(ChangeFault::RealmWithoutName) => Ok(without_password(alloc, Body::BadData, stamp)),
        Err(ChangeFault::Memory) => Err(AllocError),
    }
}

/// The content of a change that is asked for.
fn change_content(
    alloc: Global,
    realm: &[u8],
    change: ChangeData,
    stamp: Option<i64>,
) -> Result<Content, AllocError>
    ensures held { IfOk result (IsHeld
        (new_password (option_map (target_in realm.now) change.target) change.password) stamp) }
{
    let ChangeData { password, target } = change;
    let target = match target {
        None => None,
        Some(target) => Some(target_of(alloc, realm, target)?),
    };
    let digest = Digest::derive(alloc, password.as_slice(), &[], &Counts::new())?;
    Ok(Content {
        body: Body::Ask { target, digest },
        password: Items::of(password.into_vec()),
        stamp,
    })
}
