//! The entries of a keytab, each by itself.
ghost use Rattle.std.specs.Prelude.{◌≡◌, IfOk, map};
ghost use Rattle.chpw_import.specs.Entries.{is_aes, key_in, name_in, named};

use crate::left::Reason;
use chpw_config_text::can_be_written;
use chpw_rules::{ETYPES, Items, Name};
use krb_keys::{Key, key_of};
use krb_keytab::KeytabEntry;
use std::alloc::{AllocError, Global};

/// The name of the entry, if it is of a version of a principal of the realm; otherwise why it isn't.
#[tactic(auto, unfolding(crate::specs::Entries::named))]
pub(crate) fn named_in(
    alloc: Global,
    realm: &[u8],
    entry: &KeytabEntry,
) -> Result<Result<Name, Reason>, AllocError>
    ensures value { IfOk result (λ found. found ≡ named realm.now entry.now) }
{
    if entry.realm.as_slice() != realm {
        return Ok(Err(Reason::OtherRealm));
    }
    let name = name_of(alloc, entry)?;
    if !name.fits() || !can_be_written(&name) {
        return Ok(Err(Reason::BadName));
    }
    if entry.kvno == 0 {
        return Ok(Err(Reason::NoVersion));
    }
    Ok(Ok(name))
}

/// The entry's key, or why no configuration can have it.
#[tactic(auto, unfolding(crate::specs::Entries::key_in))]
pub(crate) fn usable_key(entry: &KeytabEntry) -> Result<Key, Reason>
    ensures value { result ≡ key_in entry.now }
{
    if !is_aes(entry.etype) {
        return Err(Reason::OtherType);
    }
    match key_of(i32::from(entry.etype), entry.key.as_slice()) {
        Ok(key) => Ok(key),
        Err(_) => Err(Reason::KeyLength),
    }
}

// Whether it is an encryption type of a configuration's keys.
fn is_aes(etype: i16) -> bool
    ensures value { result ≡ is_aes etype }
{
    match usize::try_from(etype) {
        Ok(number) => ETYPES.allow(number),
        Err(_) => false,
    }
}

/// The name of the entry, in new memory.
pub(crate) fn name_of(alloc: Global, entry: &KeytabEntry) -> Result<Name, AllocError>
    ensures value { IfOk result (λ name. name ≡ name_in entry.now) }
{
    let parts = copies(alloc, entry.components.as_slice())?;
    Ok(Name {
        parts: Items::of(parts),
    })
}

fn copies(alloc: Global, components: &[Vec<u8>]) -> Result<Vec<Items<u8>>, AllocError>
    ensures value { IfOk result (λ parts. parts.items ≡ map (λ c. c.items) components.now) }
{
    let mut parts = Vec::with_capacity(alloc, components.len())?;
    for component in components {
        parts.push(Items::of(Vec::from_slice(alloc, component.as_slice())?))?;
    }
    Ok(parts)
}
