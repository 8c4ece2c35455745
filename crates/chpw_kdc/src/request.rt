//! What the agent is asked.
ghost use Rattle.std.specs.Prelude.{◌≡◌, ◌++◌, IfOk, OnOk};
ghost use Rattle.chpw_kdc.specs.Lines.{request_line, request_text, get, put};
ghost use Rattle.chpw_kdc.specs.Requests.{request_of};

use crate::fields::{put_hex, put_name, put_number};
use chpw_record::KeyRow;
use chpw_rules::Name;
use std::alloc::{AllocError, Global};

/// The most bytes of a line, with its newline.
pub const LINE: usize = 1_024;

/// A request to the agent. Each name has at most 900 characters in a line (`is_sayable`).
#[derive(Clone, Copy, Drop)]
pub enum Request<'a> {
    /// Every name of the realm with its keys.
    ListKeys,
    /// The newest version of a name.
    Get(&'a Name),
    /// This key becomes that of the name.
    Put { name: &'a Name, key: &'a KeyRow },
}

impl Request<'_> {
    /// Its line, with the newline.
    pub fn line(&self, alloc: Global) -> Result<Vec<u8>, AllocError>
        ensures value { IfOk result (λ line. line.items ≡ request_line (request_of self.now)) }
    {
        let mut line = Vec::with_capacity(alloc, LINE)?;
        match self {
            Request::ListKeys => line.extend_from_slice(b"list keys")?,
            Request::Get(name) => put_get(&mut line, name)?,
            Request::Put { name, key } => put_put(&mut line, name, key)?,
        }
        line.push(b'\n')?;
        Ok(line)
    }
}

// `get NAME`
fn put_get(line: &mut Vec<u8>, name: &Name) -> Result<(), AllocError>
    ensures value { OnOk result (line.new.items ≡ line.old.items ++ request_text (get name.now)) }
{
    line.extend_from_slice(b"get ")?;
    put_name(line, name)
}

// `put NAME KVNO AES256 AES128`
fn put_put(line: &mut Vec<u8>, name: &Name, key: &KeyRow) -> Result<(), AllocError>
    ensures value { OnOk result (line.new.items
        ≡ line.old.items ++ request_text (put name.now key.now)) }
{
    line.extend_from_slice(b"put ")?;
    put_name(line, name)?;
    line.push(b' ')?;
    put_number(line, key.kvno)?;
    line.push(b' ')?;
    put_hex(line, key.aes256.as_slice())?;
    line.push(b' ')?;
    put_hex(line, key.aes128.as_slice())
}
