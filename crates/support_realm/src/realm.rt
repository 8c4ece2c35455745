//! The realm EXAMPLE.COM.
ghost use Rattle.std.specs.Prelude.{◌≡◌, true, IfOk};
ghost use Rattle.chpw_rules.specs.Fitting.{config_fits};
ghost use Rattle.chpw_rules.specs.Names.{is_name};

use chpw_rules::{Config, Items, KeyBytes, Name, Policy, PrincipalRow, Rules, ServiceRow};
use chpw_table::Table;
use krb_keys::AES256_CTS_HMAC_SHA1_96;
use std::alloc::{AllocError, Global};
use std::io::{self, Error, ErrorKind};

/// The realm's configuration, with these principals and at most this many entries: the service's key is 32 bytes 5a
/// with kvno 3, and each principal has a key of kvno 1 under `iterations`, which new keys have too. A configuration
/// that doesn't fit is refused.
pub fn config(
    alloc: Global,
    principals: Vec<Name>,
    iterations: u32,
    max_entries: u32,
) -> io::Result<Config>
    ensures fits { IfOk result (λ config. config_fits config ≡ true) }
{
    let config = Config {
        realm: bytes(alloc, b"EXAMPLE.COM")?,
        max_entries,
        service: Items::of(vec![in alloc; service_key(alloc)?]?),
        policy: Policy {
            min_length: 6,
            min_classes: 2,
            depth: 2,
            iterations,
            set_needs_initial: false,
        },
        rules: Rules {
            list: Items::of(Vec::new(alloc)),
        },
        principals: Items::of(rows(alloc, principals, iterations)?),
    };
    if config.fits() {
        Ok(config)
    } else {
        Err(Error::from(ErrorKind::InvalidInput))
    }
}

/// The table that this configuration opens with.
pub fn table(
    alloc: Global,
    principals: Vec<Name>,
    iterations: u32,
    max_entries: u32,
) -> io::Result<Table> {
    let config = config(alloc, principals, iterations, max_entries)?;
    Ok(Table::start(alloc, config, -1)?)
}

/// The name with this text.
pub fn name(alloc: Global, text: &str) -> io::Result<Name>
    ensures fits { IfOk result (λ name. is_name name ≡ true) }
{
    match Name::parse(alloc, text)? {
        Some(name) if name.fits() => Ok(name),
        _ => Err(Error::from(ErrorKind::InvalidInput)),
    }
}

fn service_key(alloc: Global) -> Result<ServiceRow, AllocError> {
    Ok(ServiceRow {
        kvno: 3,
        etype: AES256_CTS_HMAC_SHA1_96,
        key: bytes(alloc, &[0x5a; 32])?,
    })
}

fn rows(
    alloc: Global,
    principals: Vec<Name>,
    iterations: u32,
) -> Result<Vec<PrincipalRow>, AllocError> {
    let key = KeyBytes {
        kvno: 1,
        iterations,
        aes128: [0xa1; 16],
        aes256: [0xa1; 32],
    };
    let mut rows = Vec::new(alloc);
    for name in principals {
        let keys = Items::of(vec![in alloc; key]?);
        rows.push(PrincipalRow { name, keys })?;
    }
    Ok(rows)
}

pub(crate) fn bytes(alloc: Global, text: &[u8]) -> Result<Items<u8>, AllocError> {
    Ok(Items::of(Vec::from_slice(alloc, text)?))
}
