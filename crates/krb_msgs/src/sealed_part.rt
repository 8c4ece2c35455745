//! Sealed parts of messages (RFC 4120 section 5.2.9).

ghost use Rattle.std.specs.Prelude.{◌≡◌, ◌<◌, IfOk, length};
ghost use Rattle.krb_codec.specs.Texts.{text};
ghost use Rattle.krb_msgs.specs.Parts.{sealed_part};

use krb_codec::{Write, write_all};
use krb_der::{Bytes, EncryptedData};
use krb_keys::{CONFOUNDER_LEN, Key, seal};
use std::alloc::{AllocError, Global};

/// The part that seals a record's text under this key, for this usage.
pub fn seal_part<T: Write>(
    alloc: Global,
    key: &Key,
    usage: u32,
    kvno: Option<u32>,
    confounder: [u8; CONFOUNDER_LEN],
    content: &T,
) -> Result<EncryptedData, AllocError>
    ensures value { IfOk result (λ part. part
        ≡ sealed_part key.now usage kvno confounder (text T.shape (T.value content.now))) }
{
    let plain = write_all(alloc, content)?;
    let cipher = seal(alloc, key, usage, confounder, &plain)?;
    Ok(EncryptedData {
        etype: key.etype().number(),
        kvno,
        cipher: Bytes::of(cipher),
    })
}
