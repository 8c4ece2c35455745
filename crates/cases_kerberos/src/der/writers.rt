//! The writer of each record.
ghost use Rattle.std.specs.Prelude.{◌≡◌, true};
ghost use Rattle.krb_codec.specs.Texts.{fits};

use krb_codec::Write;
use krb_der::{
    ApRep, ApReq, Authenticator, AuthorizationData, ChangePasswdData, Checksum, EncApRepPart,
    EncKrbPrivPart, EncTicketPart, EncryptedData, EncryptionKey, HostAddress, KrbError, KrbPriv,
    PrincipalName, Ticket, TransitedEncoding, write_ap_rep, write_ap_req, write_authenticator,
    write_authorization_data, write_change_passwd_data, write_checksum, write_enc_ap_rep_part,
    write_enc_krb_priv_part, write_enc_ticket_part, write_encrypted_data, write_encryption_key,
    write_host_address, write_krb_error, write_krb_priv, write_principal_name, write_ticket,
    write_transited_encoding,
};
use std::alloc::{AllocError, Global};

/// A record with a writer of its own.
pub trait Record: Write + Drop {
    /// The text of a record that fits.
    fn text(&self, alloc: Global) -> Result<Vec<u8>, AllocError>
        requires fits { fits Self.shape (Self.value self.now) ≡ true };
}

impl Record for PrincipalName {
    fn text(&self, alloc: Global) -> Result<Vec<u8>, AllocError> {
        write_principal_name(alloc, self)
    }
}

impl Record for EncryptedData {
    fn text(&self, alloc: Global) -> Result<Vec<u8>, AllocError> {
        write_encrypted_data(alloc, self)
    }
}

impl Record for EncryptionKey {
    fn text(&self, alloc: Global) -> Result<Vec<u8>, AllocError> {
        write_encryption_key(alloc, self)
    }
}

impl Record for HostAddress {
    fn text(&self, alloc: Global) -> Result<Vec<u8>, AllocError> {
        write_host_address(alloc, self)
    }
}

impl Record for Checksum {
    fn text(&self, alloc: Global) -> Result<Vec<u8>, AllocError> {
        write_checksum(alloc, self)
    }
}

impl Record for TransitedEncoding {
    fn text(&self, alloc: Global) -> Result<Vec<u8>, AllocError> {
        write_transited_encoding(alloc, self)
    }
}

impl Record for AuthorizationData {
    fn text(&self, alloc: Global) -> Result<Vec<u8>, AllocError> {
        write_authorization_data(alloc, self)
    }
}

impl Record for ChangePasswdData {
    fn text(&self, alloc: Global) -> Result<Vec<u8>, AllocError> {
        write_change_passwd_data(alloc, self)
    }
}

impl Record for Ticket {
    fn text(&self, alloc: Global) -> Result<Vec<u8>, AllocError> {
        write_ticket(alloc, self)
    }
}

impl Record for EncTicketPart {
    fn text(&self, alloc: Global) -> Result<Vec<u8>, AllocError> {
        write_enc_ticket_part(alloc, self)
    }
}

impl Record for Authenticator {
    fn text(&self, alloc: Global) -> Result<Vec<u8>, AllocError> {
        write_authenticator(alloc, self)
    }
}

impl Record for ApReq {
    fn text(&self, alloc: Global) -> Result<Vec<u8>, AllocError> {
        write_ap_req(alloc, self)
    }
}

impl Record for ApRep {
    fn text(&self, alloc: Global) -> Result<Vec<u8>, AllocError> {
        write_ap_rep(alloc, self)
    }
}

impl Record for EncApRepPart {
    fn text(&self, alloc: Global) -> Result<Vec<u8>, AllocError> {
        write_enc_ap_rep_part(alloc, self)
    }
}

impl Record for KrbPriv {
    fn text(&self, alloc: Global) -> Result<Vec<u8>, AllocError> {
        write_krb_priv(alloc, self)
    }
}

impl Record for EncKrbPrivPart {
    fn text(&self, alloc: Global) -> Result<Vec<u8>, AllocError> {
        write_enc_krb_priv_part(alloc, self)
    }
}

impl Record for KrbError {
    fn text(&self, alloc: Global) -> Result<Vec<u8>, AllocError> {
        write_krb_error(alloc, self)
    }
}
