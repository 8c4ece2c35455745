//! Which messages a service accepts.
ghost use Rattle.std.specs.Prelude.{◌≡◌};
ghost use Rattle.chpw_messages.specs.Versions as specs_of;

use chpw_frame::REQUEST_VERSION;
use krb_msgs::Strictness;

/// The versions of requests that a service answers.
#[derive(Clone, Copy, Drop)]
pub enum Versions {
    /// 0xff80 (RFC 3244 section 2), and 0x0001 (draft-ietf-cat-kerb-chg-password-02 section 3).
    Both,
    /// 0xff80. A message of another version is answered `bad version`: 6, KRB_ERR_GENERIC (60).
    Rfc3244Only,
}

/// Which messages a service accepts.
#[derive(Clone, Copy, Drop)]
pub struct Acceptance {
    pub versions: Versions,
    /// Of their KRB-PRIVs.
    pub messages: Strictness,
}

impl Versions {
    /// Whether a message is refused for its version, before anything else of it is looked at.
    pub(crate) fn refuses(self, message: &[u8]) -> bool
        ensures value { result ≡ specs_of.refuses self message.now }
    {
        match self {
            Versions::Both => false,
            Versions::Rfc3244Only => is_of_another(message),
        }
    }
}

// Whether a message whose length field is its length has another version than 0xff80.
fn is_of_another(message: &[u8]) -> bool
    ensures value { result ≡ specs_of.is_of_another message.now }
{
    let [l0, l1, v0, v1, _, _, ..] = message else {
        return false;
    };
    if usize::from(u16::from_be_bytes([*l0, *l1])) != message.len() {
        return false;
    }
    u16::from_be_bytes([*v0, *v1]) != REQUEST_VERSION
}
