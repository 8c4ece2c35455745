//! Requests without keys, and digests.
ghost use Rattle.std.specs.Prelude.{◌≡◌, ◌∷◌, []};

use crate::desk::words::number;
use chpw_rules::Items;
use chpw_table::{Body, Counts, Digest, Opened, Target};
use std::alloc::Global;
use std::io;
use support_cases::no_case;
use support_realm::{change, name};

const REALM: &[u8] = b"EXAMPLE.COM";

/// `NAME LENGTH TARGET STARTS ENDS`: the client asks for a password of this length and 4 classes for the target, `-` for
/// itself, with a ticket from the first to the last of these seconds.
pub fn asking(alloc: Global, text: &str) -> io::Result<Opened> {
    let mut words = text.split(' ');
    let client = name(alloc, words.next().unwrap_or(""))?;
    let length = number(words.next());
    let target = target_of(alloc, words.next().unwrap_or("-"))?;
    let Some(digest) = Digest::of(length, 4, Vec::new(alloc)) else {
        return Err(no_case());
    };
    let Some(unused) = Digest::of(length, 4, Vec::new(alloc)) else {
        return Err(no_case());
    };
    let mut opened = change(alloc, client, 1, unused)?;
    opened.body = Body::Ask { target, digest };
    opened.starts = i64::from(number(words.next()));
    opened.ends = i64::from(number(words.next()));
    Ok(opened)
}

fn target_of(alloc: Global, text: &str) -> io::Result<Option<Target>> {
    if text == "-" {
        return Ok(None);
    }
    Ok(Some(Target {
        realm: Items::of(Vec::from_slice(alloc, REALM)?),
        name: name(alloc, text)?,
    }))
}

/// The digest of a principal's password, with its keys under 4 iterations.
pub fn digest_of(alloc: Global, client: &str, password: &str) -> io::Result<Digest> {
    let mut salt = Vec::from_slice(alloc, REALM)?;
    salt.extend_from_slice(client.as_bytes())?;
    Ok(Digest::derive(alloc, password.as_bytes(), &salt, &four())?)
}

fn four() -> Counts
    ensures value { result ≡ 4 ∷ [] }
{
    let mut counts = Counts::new();
    let _ = counts.push(4);
    counts
}
