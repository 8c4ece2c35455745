//! Opening and making messages.
ghost use Rattle.std.specs.Prelude.{◌≡◌, ◌≤◌, ◌<◌, ℕ, List, length, IfOk};
ghost use Rattle.chpw_endpoints.specs.declared.endpoints.Endpoints.{Endpoints as endpoints_spec};
ghost use Rattle.chpw_table.specs.declared.times.Moment.{Moment};
ghost use Rattle.chpw_table.specs.Times.{IsMoment};
ghost use Rattle.chpw_table.specs.Replies.{Answer, by_private};
ghost use Rattle.chpw_serve.specs.declared.messages.Seal.{Seal};
ghost use Rattle.chpw_serve.specs.Requests.{Opens};
ghost use Rattle.chpw_serve.specs.Holding.{IsInTime, IsOpenResult, IsReplyTime, answer_in};

use chpw_endpoints::Endpoints;
use chpw_rules::Items;
use chpw_table::{Moment, Opened};
use krb_keys::Key;
use krb_protocol::Refusal;
use std::alloc::{AllocError, Global};
use std::net::IpAddr;

/// The keys, the times and the address that the reply to an opened request is made with.
#[derive(Drop)]
pub struct Seal {
    /// The ticket's key, for the AP-REP.
    pub session: Key,
    /// The authenticator's, for the KRB-PRIV.
    pub subkey: Key,
    /// The authenticator's time, in seconds since 1970-01-01T00:00:00Z, and its microseconds. A reply can carry a time
    /// of the years 0 to 9999, and 0 to 999999 microseconds.
    pub ctime: i64,
    pub cusec: u32,
    /// The service's own address that the request was sent to: the s-address of the KRB-PRIV (RFC 4120 section 5.7.1).
    pub address: IpAddr,
}

/// A request that opened, its digest with no keys yet.
#[derive(Drop)]
pub struct OpenRequest {
    pub opened: Opened,
    /// The new password; no bytes if none came.
    pub password: Items<u8>,
    pub seal: Seal,
}

/// What a message opens to.
#[derive(Drop)]
pub enum OpenResult {
    Refused(Refusal),
    Opened(OpenRequest),
}

/// The service's realm and keys, with which messages are opened and made.
pub trait Messages {
    /// A message that came over these addresses opens to this.
    ghost opens: { Self → endpoints_spec → List ℕ → Opens → Type 0 };

    /// The frame of a KRB-ERROR.
    ghost error_frame: { Self → Answer → Moment → List ℕ };

    /// The frame of AP-REP and KRB-PRIV, with these words.
    ghost private_frame: { Self → Seal → Answer → List ℕ → List ℕ };

    /// The service's realm.
    fn realm(&self) -> &[u8];

    /// Opens a message that came over these addresses.
    fn open(&self, alloc: Global, ends: Endpoints, message: &[u8]) -> Result<OpenResult, AllocError>
        ensures opening { IfOk result (λ found. (o : Opens) × opens self.now ends message.now o × IsOpenResult o found) }
        ensures times { IfOk result IsInTime };

    /// The reply that is a KRB-ERROR of this moment, whose microseconds are below 1,000,000.
    fn make_error(
        &self,
        alloc: Global,
        refusal: Refusal,
        now: Moment,
    ) -> Result<Vec<u8>, AllocError>
        requires moment { IsMoment now }
        requires micros { now.micros < 1000000 }
        ensures frame { IfOk result (λ bytes. bytes.items ≡ error_frame self.now (answer_in refusal) now) }
        ensures fits { IfOk result (λ bytes. length bytes.items ≤ 65535) };

    /// The reply of AP-REP and KRB-PRIV with this result code and text of at most 100 bytes.
    fn make_private(
        &self,
        alloc: Global,
        seal: &Seal,
        code: u16,
        text: &str,
        words: [u32; 9],
    ) -> Result<Vec<u8>, AllocError>
        requires times { IsReplyTime seal.now }
        requires text { length text.now ≤ 100 }
        ensures frame { IfOk result (λ bytes. bytes.items
            ≡ private_frame self.now seal.now (by_private code text.now) words) }
        ensures fits { IfOk result (λ bytes. length bytes.items ≤ 65535) };
}
