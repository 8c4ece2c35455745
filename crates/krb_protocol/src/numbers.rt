//! Numbers of the protocol.

/// The version of Kerberos: pvno, tkt-vno and authenticator-vno (RFC 4120 section 7.5.6).
pub const PVNO: i32 = 5;

/// The message type of an AP-REQ (section 7.5.7).
pub const KRB_AP_REQ: i32 = 14;

/// The message type of an AP-REP (section 7.5.7).
pub const KRB_AP_REP: i32 = 15;

/// The message type of a KRB-PRIV (section 7.5.7).
pub const KRB_PRIV: i32 = 21;

/// The message type of a KRB-ERROR (section 7.5.7).
pub const KRB_ERROR: i32 = 30;

/// The address type of IPv4 (section 7.5.3).
pub const ADDR_TYPE_IPV4: i32 = 2;

/// The address type of IPv6 (section 7.5.3).
pub const ADDR_TYPE_IPV6: i32 = 24;

/// The name type of a user or of a service that isn't bound to a host (section 6.2).
pub const NT_PRINCIPAL: i32 = 1;

/// The name type of a service and its instance (section 6.2).
pub const NT_SRV_INST: i32 = 2;

/// The bit of the AP options that asks for the session key of a TGT (section 5.5.1).
pub const USE_SESSION_KEY: u32 = 1;

/// The bit of the AP options that asks for an AP-REP (section 5.5.1).
pub const MUTUAL_REQUIRED: u32 = 2;

/// The bit of a ticket's flags that says it must be validated before use (section 5.3).
pub const TICKET_INVALID: u32 = 7;

/// The bit of a ticket's flags that says it was issued in the AS exchange (section 5.3).
pub const TICKET_INITIAL: u32 = 9;
