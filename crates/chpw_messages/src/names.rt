//! Names and targets of messages, as they are judged: components alone.
ghost use Rattle.std.specs.Prelude.{◌≡◌, IfOk};
ghost use Rattle.chpw_messages.specs.Opening.{name_in, target_in};

use chpw_frame::ChangeTarget;
use chpw_rules::{Items, Name};
use chpw_table::Target;
use krb_der::PrincipalName;
use std::alloc::{AllocError, Global};

/// The name with these components.
pub(crate) fn name_of(alloc: Global, name: PrincipalName) -> Result<Name, AllocError>
    ensures value { IfOk result (λ n. n ≡ name_in name) }
{
    let components = name.name_string.into_vec();
    let mut parts = Vec::with_capacity(alloc, components.len())?;
    for component in components {
        parts.push(Items::of(component.into_vec()))?;
    }
    Ok(Name {
        parts: Items::of(parts),
    })
}

/// The target that a request names; without a realm it is in this one.
pub(crate) fn target_of(
    alloc: Global,
    realm: &[u8],
    target: ChangeTarget,
) -> Result<Target, AllocError>
    ensures value { IfOk result (λ t. t ≡ target_in realm.now target) }
{
    let ChangeTarget { name, realm: named } = target;
    let realm = match named {
        None => Items::of(Vec::from_slice(alloc, realm)?),
        Some(named) => Items::of(named.into_vec()),
    };
    Ok(Target {
        realm,
        name: name_of(alloc, name)?,
    })
}
