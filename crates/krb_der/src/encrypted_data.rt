//! Sealed texts, keys and checksums (RFC 4120 section 5.2.9).

ghost use Rattle.std.specs.Prelude.{◌≡◌, refl, true, IfOk, Ok};
ghost use Rattle.krb_codec.specs.Shapes.{Value};
ghost use Rattle.krb_der.specs.Types.{checksum, encrypted_data, encryption_key};
ghost use Rattle.krb_der.specs.Values.{checksum_value, encrypted_data_value, encryption_key_value};
ghost use Rattle.krb_codec.specs.Grammar.{Spells};
ghost use Rattle.krb_codec.specs.Reading.{Gives, reads_all};
ghost use Rattle.krb_codec.specs.Texts.{text, fits};

use crate::typed_octets::TypedOctets;
use krb_codec::{
    Element, Layout, OctetString, Optional, Read, ReadError, Region, Required, Sequence, Sink,
    Write, read_all, write_all,
};
use std::alloc::{AllocError, Global};

/// A sealed text (RFC 4120 section 5.2.9).
#[derive(Drop)]
pub struct EncryptedData {
    /// The encryption type.
    pub etype: i32,
    /// The key's version.
    pub kvno: Option<u32>,
    pub cipher: OctetString,
}

impl Element for EncryptedData {
    ghost shape = { encrypted_data };

    ghost value = { encrypted_data_value };

    ghost legal = { refl };
}

type SealedFields = Sequence<(Required<0, i32>, Optional<1, u32>, Required<2, OctetString>)>;

impl Read for EncryptedData {
    fn read(alloc: Global, region: &mut Region<'_>) -> Result<EncryptedData, ReadError> {
        let (etype, kvno, cipher) = SealedFields::read(alloc, region)?;
        Ok(EncryptedData {
            etype,
            kvno,
            cipher,
        })
    }
}

impl Write for EncryptedData {
    fn write<S: Sink>(&self, sink: &mut S) -> Result<(), AllocError> {
        SealedFields::put(sink, (&self.etype, &self.kvno, &self.cipher))
    }
}

/// The EncryptedData that a whole text spells (RFC 4120 section 5.2.9), or the first fault.
///
/// `Memory` where a growth is refused.
pub fn read_encrypted_data(alloc: Global, text: &[u8]) -> Result<EncryptedData, ReadError>
    ensures value { IfOk result (λ x. Spells encrypted_data text.now (encrypted_data_value x)) }
    ensures found { (v : Value encrypted_data) → Spells encrypted_data text.now v
        → Gives encrypted_data_value result (Ok v) }
    ensures first { Gives encrypted_data_value result (reads_all encrypted_data text.now) }
{
    read_all(alloc, text)
}

/// The text of an EncryptedData that fits. An error where a growth is refused.
pub fn write_encrypted_data(alloc: Global, value: &EncryptedData) -> Result<Vec<u8>, AllocError>
    requires fits { fits encrypted_data (encrypted_data_value value.now) ≡ true }
    ensures text { IfOk result (λ v. v.items
        ≡ text encrypted_data (encrypted_data_value value.now)) }
{
    write_all(alloc, value)
}

/// A key (RFC 4120 section 5.2.9).
#[derive(Drop)]
pub struct EncryptionKey {
    /// The encryption type.
    pub keytype: i32,
    pub keyvalue: OctetString,
}

impl Element for EncryptionKey {
    ghost shape = { encryption_key };

    ghost value = { encryption_key_value };

    ghost legal = { refl };
}

impl Read for EncryptionKey {
    fn read(alloc: Global, region: &mut Region<'_>) -> Result<EncryptionKey, ReadError> {
        let (keytype, keyvalue) = TypedOctets::read(alloc, region)?;
        Ok(EncryptionKey { keytype, keyvalue })
    }
}

impl Write for EncryptionKey {
    fn write<S: Sink>(&self, sink: &mut S) -> Result<(), AllocError> {
        TypedOctets::put(sink, (&self.keytype, &self.keyvalue))
    }
}

/// The EncryptionKey that a whole text spells (RFC 4120 section 5.2.9), or the first fault.
///
/// `Memory` where a growth is refused.
pub fn read_encryption_key(alloc: Global, text: &[u8]) -> Result<EncryptionKey, ReadError>
    ensures value { IfOk result (λ x. Spells encryption_key text.now (encryption_key_value x)) }
    ensures found { (v : Value encryption_key) → Spells encryption_key text.now v
        → Gives encryption_key_value result (Ok v) }
    ensures first { Gives encryption_key_value result (reads_all encryption_key text.now) }
{
    read_all(alloc, text)
}

/// The text of an EncryptionKey that fits. An error where a growth is refused.
pub fn write_encryption_key(alloc: Global, value: &EncryptionKey) -> Result<Vec<u8>, AllocError>
    requires fits { fits encryption_key (encryption_key_value value.now) ≡ true }
    ensures text { IfOk result (λ v. v.items
        ≡ text encryption_key (encryption_key_value value.now)) }
{
    write_all(alloc, value)
}

/// A checksum (RFC 4120 section 5.2.9).
#[derive(Drop)]
pub struct Checksum {
    pub cksumtype: i32,
    pub checksum: OctetString,
}

impl Element for Checksum {
    ghost shape = { checksum };

    ghost value = { checksum_value };

    ghost legal = { refl };
}

impl Read for Checksum {
    fn read(alloc: Global, region: &mut Region<'_>) -> Result<Checksum, ReadError> {
        let (cksumtype, checksum) = TypedOctets::read(alloc, region)?;
        Ok(Checksum {
            cksumtype,
            checksum,
        })
    }
}

impl Write for Checksum {
    fn write<S: Sink>(&self, sink: &mut S) -> Result<(), AllocError> {
        TypedOctets::put(sink, (&self.cksumtype, &self.checksum))
    }
}

/// The Checksum that a whole text spells (RFC 4120 section 5.2.9), or the first fault.
///
/// `Memory` where a growth is refused.
pub fn read_checksum(alloc: Global, text: &[u8]) -> Result<Checksum, ReadError>
    ensures value { IfOk result (λ x. Spells checksum text.now (checksum_value x)) }
    ensures found { (v : Value checksum) → Spells checksum text.now v
        → Gives checksum_value result (Ok v) }
    ensures first { Gives checksum_value result (reads_all checksum text.now) }
{
    read_all(alloc, text)
}

/// The text of a Checksum that fits. An error where a growth is refused.
pub fn write_checksum(alloc: Global, value: &Checksum) -> Result<Vec<u8>, AllocError>
    requires fits { fits checksum (checksum_value value.now) ≡ true }
    ensures text { IfOk result (λ v. v.items ≡ text checksum (checksum_value value.now)) }
{
    write_all(alloc, value)
}
