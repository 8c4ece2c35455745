//! Requests from words.

use chpw_rules::{Items, Name};
use chpw_table::{Body, Digest, Opened, Target};
use std::alloc::Global;
use support_cases::{Fault, bytes};

/// A request of this client for this target.
pub fn opened_request(alloc: Global, client: &str, target: &str) -> Result<Opened, Fault> {
    let Target { realm, name } = principal(alloc, client)?;
    Ok(Opened {
        crealm: realm,
        client: name,
        initial: true,
        invalid: false,
        starts: 0,
        ends: 0,
        ctime: 0,
        cusec: 0,
        stamp: None,
        body: body(alloc, target)?,
    })
}

// A principal, or `own` for none, or the kind of a bad KRB-PRIV.
fn body(alloc: Global, target: &str) -> Result<Body, Fault> {
    let target = match target {
        "bad-private" => return Ok(Body::BadPrivate),
        "bad-data" => return Ok(Body::BadData),
        "own" => None,
        text => Some(principal(alloc, text)?),
    };
    match Digest::of(8, 3, Vec::new(alloc)) {
        Some(digest) => Ok(Body::Ask { target, digest }),
        None => Err(Fault::NoSuchCase),
    }
}

/// REALM:PART.PART, in hexadecimal; a name without components has no `:`.
pub fn principal(alloc: Global, text: &str) -> Result<Target, Fault> {
    let (realm, parts) = match text.split_once(':') {
        Some((realm, name)) => (realm, parts_of(alloc, name)?),
        None => (text, Vec::new(alloc)),
    };
    Ok(Target {
        realm: Items::of(bytes(alloc, realm)?),
        name: Name {
            parts: Items::of(parts),
        },
    })
}

fn parts_of(alloc: Global, name: &str) -> Result<Vec<Items<u8>>, Fault> {
    let mut parts = Vec::new(alloc);
    for part in name.split('.') {
        parts.push(Items::of(bytes(alloc, part)?))?;
    }
    Ok(parts)
}
