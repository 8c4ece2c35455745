//! The change that a request asks for: a new password, and whose it is.
ghost use Rattle.std.specs.Prelude.{◌≡◌, IfOk, IfErr};
ghost use Rattle.chpw_frame.specs.declared.change_data.ChangeData.{ChangeData};
ghost use Rattle.chpw_frame.specs.ChangeData.{IsChange, IsNoChange, Finds};
ghost use Rattle.chpw_frame.specs.Asked.{asked};

use krb_der::{
    ChangePasswdData, GeneralString, OctetString, PrincipalName, ReadError, read_change_passwd_data,
};
use std::alloc::Global;
use thiserror::Error;

/// A new password, and whose it is (RFC 3244 section 2).
#[derive(Drop)]
pub struct ChangeData {
    pub password: OctetString,
    /// If absent, the client.
    pub target: Option<ChangeTarget>,
}

/// Whose password is to be set.
#[derive(Drop)]
pub struct ChangeTarget {
    pub name: PrincipalName,
    /// If absent, the service's.
    pub realm: Option<GeneralString>,
}

/// Why bytes ask for no change, in the order of the checks.
#[derive(Clone, Copy, Debug, Drop, Error)]
pub enum ChangeFault {
    /// They are no ChangePasswdData.
    #[error("no ChangePasswdData")]
    NotChangeData,
    /// They have a targrealm and no targname.
    #[error("a realm without a name")]
    RealmWithoutName,
    /// Memory ran out.
    #[error("out of memory")]
    Memory,
}

/// The change that a KRB-PRIV's user-data asks for, a ChangePasswdData (RFC 3244 section 2).
pub fn read_change_data(alloc: Global, bytes: &[u8]) -> Result<ChangeData, ChangeFault>
    ensures sound { IfOk result (λ change. IsChange bytes.now change) }
    ensures complete { (change : ChangeData) → IsChange bytes.now change → Finds result change }
    ensures first { IfErr result (λ fault. IsNoChange fault bytes.now) }
{
    match read_change_passwd_data(alloc, bytes) {
        Ok(fields) => change_of(fields),
        Err(ReadError::Fault(_)) => Err(ChangeFault::NotChangeData),
        Err(ReadError::Memory) => Err(ChangeFault::Memory),
    }
}

/// The change that a ChangePasswdData asks for.
fn change_of(fields: ChangePasswdData) -> Result<ChangeData, ChangeFault>
    ensures value { result ≡ asked fields }
{
    match (fields.targname, fields.targrealm) {
        (Some(name), realm) => Ok(ChangeData {
            password: fields.newpasswd,
            target: Some(ChangeTarget { name, realm }),
        }),
        (None, None) => Ok(ChangeData {
            password: fields.newpasswd,
            target: None,
        }),
        (None, Some(_)) => Err(ChangeFault::RealmWithoutName),
    }
}
