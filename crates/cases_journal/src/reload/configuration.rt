//! A configuration, made from a case's words.
ghost use Rattle.std.specs.Prelude.{◌≡◌, true, IfOk};
ghost use Rattle.chpw_rules.specs.Fitting.{config_fits};

use crate::pieces::number;
use chpw_rules::{Config, Items, KeyBytes, PrincipalRow};
use std::alloc::Global;
use std::io;
use support_cases::no_case;
use support_realm::{config, name};

/// The configuration with these words, with `; ` between: `NAME KVNO KVNO ..`, a principal with these keys, newest
/// first, whose bytes are of that number, or, with `!` after it, of another; `depth N`, default 2; `count N`, default
/// 4096; `realm R`, default EXAMPLE.COM; `entries N`, default 100.
pub fn config_of(alloc: Global, words: &str) -> io::Result<Config>
    ensures fits { IfOk result (λ config. config_fits config ≡ true) }
{
    let mut config = config(alloc, Vec::new(alloc), 4096, 100)?;
    let mut rows = Vec::new(alloc);
    for word in words.split("; ") {
        put_word(alloc, &mut config, &mut rows, word)?;
    }
    config.principals = Items::of(rows);
    if config.fits() {
        Ok(config)
    } else {
        Err(no_case())
    }
}

fn put_word(
    alloc: Global,
    config: &mut Config,
    rows: &mut Vec<PrincipalRow>,
    word: &str,
) -> io::Result<()> {
    let Some((what, rest)) = word.split_once(' ') else {
        return Err(no_case());
    };
    match what {
        "depth" => config.policy.depth = u8::try_from(number(rest)?).unwrap_or(u8::MAX),
        "count" => config.policy.iterations = number(rest)?,
        "entries" => config.max_entries = number(rest)?,
        "realm" => config.realm = Items::of(Vec::from_slice(alloc, rest.as_bytes())?),
        _ => rows.push(row(alloc, what, rest)?)?,
    }
    Ok(())
}

fn row(alloc: Global, principal: &str, kvnos: &str) -> io::Result<PrincipalRow> {
    let mut keys = Vec::new(alloc);
    for word in kvnos.split(' ') {
        let kvno = number(word.strip_suffix("!").unwrap_or(word))?;
        let byte = if word.ends_with('!') {
            0xff
        } else {
            (kvno % 256) as u8
        };
        keys.push(KeyBytes {
            kvno,
            iterations: 4096,
            aes128: [byte; 16],
            aes256: [byte; 32],
        })?;
    }
    Ok(PrincipalRow {
        name: name(alloc, principal)?,
        keys: Items::of(keys),
    })
}
