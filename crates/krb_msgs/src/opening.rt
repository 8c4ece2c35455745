//! Reading messages and their sealed parts, for all messages alike.

ghost use Rattle.krb_msgs.specs.Answers.{Answers};
ghost use Rattle.krb_msgs.specs.Parts.{OpensPart, Reads};

use crate::fault::OpenError;
use krb_codec::{Read, read_all};
use krb_der::{EncryptedData, ReadError};
use krb_keys::{Key, unseal_in_place};
use std::alloc::Global;

/// The record that a text spells, or the fault where it spells none.
pub fn read_record<T: Read, F: Drop>(
    alloc: Global,
    text: &[u8],
    fault: F,
) -> Result<T, OpenError<F>>
    ensures { Answers (Reads T.shape T.value text.now fault) result }
{
    match read_all(alloc, text) {
        Ok(value) => Ok(value),
        Err(ReadError::Fault(_)) => Err(OpenError::Fault(fault)),
        Err(ReadError::Memory) => Err(OpenError::Memory),
    }
}

/// The record that a part's plain text spells; one fault where the part isn't sealed under this key and usage, another
/// where its plain text spells no record.
pub fn open_part<T: Read, F: Drop>(
    alloc: Global,
    key: &Key,
    usage: u32,
    part: EncryptedData,
    sealed_otherwise: F,
    spelled_otherwise: F,
) -> Result<T, OpenError<F>>
    ensures { Answers (OpensPart T.shape T.value key.now usage part
        sealed_otherwise spelled_otherwise) result }
{
    if part.etype != key.etype().number() {
        return Err(OpenError::Fault(sealed_otherwise));
    }
    // The plain text is read where the sealed one was, so that no byte is copied in between.
    let mut text = part.cipher.into_vec();
    match unseal_in_place(key, usage, &mut text) {
        Ok(plain) => read_record(alloc, plain, spelled_otherwise),
        Err(_) => Err(OpenError::Fault(sealed_otherwise)),
    }
}
