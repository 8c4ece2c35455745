//! Result codes and error codes.

/// The request was carried out (RFC 3244 section 2, as are the result codes below).
pub const KRB5_KPASSWD_SUCCESS: u16 = 0;

/// The request isn't well formed.
pub const KRB5_KPASSWD_MALFORMED: u16 = 1;

/// The server failed, and repeating the request won't help.
pub const KRB5_KPASSWD_HARDERROR: u16 = 2;

/// The request isn't authentic, or its time is wrong.
pub const KRB5_KPASSWD_AUTHERROR: u16 = 3;

/// The new password is refused.
pub const KRB5_KPASSWD_SOFTERROR: u16 = 4;

/// The client may not set this password.
pub const KRB5_KPASSWD_ACCESSDENIED: u16 = 5;

/// The request has another protocol version.
pub const KRB5_KPASSWD_BAD_VERSION: u16 = 6;

/// The ticket must have the flag INITIAL.
pub const KRB5_KPASSWD_INITIAL_FLAG_NEEDED: u16 = 7;

/// An encryption type that isn't supported (RFC 4120 section 7.5.9, as are the error codes below).
pub const KDC_ERR_ETYPE_NOSUPP: i32 = 14;

/// A sealed part that can't be opened.
pub const KRB_AP_ERR_BAD_INTEGRITY: i32 = 31;

pub const KRB_AP_ERR_TKT_EXPIRED: i32 = 32;

/// The ticket isn't valid yet.
pub const KRB_AP_ERR_TKT_NYV: i32 = 33;

/// The request is a replay.
pub const KRB_AP_ERR_REPEAT: i32 = 34;

/// A ticket for another service.
pub const KRB_AP_ERR_NOT_US: i32 = 35;

/// Ticket and authenticator of different clients.
pub const KRB_AP_ERR_BADMATCH: i32 = 36;

/// The clocks differ by too much.
pub const KRB_AP_ERR_SKEW: i32 = 37;

/// Another address than the ticket's.
pub const KRB_AP_ERR_BADADDR: i32 = 38;

/// Another protocol version.
pub const KRB_AP_ERR_BADVERSION: i32 = 39;

/// Another message type.
pub const KRB_AP_ERR_MSG_TYPE: i32 = 40;

/// The service has no key of that version.
pub const KRB_AP_ERR_BADKEYVER: i32 = 44;

/// The service has no key for the ticket.
pub const KRB_AP_ERR_NOKEY: i32 = 45;

/// Any other error.
pub const KRB_ERR_GENERIC: i32 = 60;

/// A message that is too long.
pub const KRB_ERR_FIELD_TOOLONG: i32 = 61;
