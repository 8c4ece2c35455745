//! The result of a raise of the iteration count.
ghost use Rattle.std.specs.Prelude.{◌≡◌};

use krb_protocol::codes::{KRB5_KPASSWD_HARDERROR, KRB5_KPASSWD_SOFTERROR, KRB5_KPASSWD_SUCCESS};

/// The verdicts on a raise, in the order of the checks.
#[derive(Clone, Copy, Drop)]
pub enum RaiseVerdict {
    /// The count is not above the present one.
    NotHigher,
    /// The journal did not take the raise, or has failed earlier.
    Broken,
    /// New keys are made under the count from then on.
    Raised,
}

impl RaiseVerdict {
    ghost use Rattle.chpw_table.specs.Raising.{is_raised};
    ghost use Rattle.chpw_table.specs.Replies.{told_of};

    /// Its result code (RFC 3244 section 2).
    pub fn code(self) -> u16
        ensures value { result ≡ (told_of self).code }
    {
        match self {
            RaiseVerdict::NotHigher => KRB5_KPASSWD_SOFTERROR,
            RaiseVerdict::Broken => KRB5_KPASSWD_HARDERROR,
            RaiseVerdict::Raised => KRB5_KPASSWD_SUCCESS,
        }
    }

    /// Its text, ASCII.
    pub fn text(self) -> &'static str
        ensures value { result.now ≡ (told_of self).text }
    {
        match self {
            RaiseVerdict::NotHigher => "count not higher",
            RaiseVerdict::Broken => "journal failed",
            RaiseVerdict::Raised => "count raised",
        }
    }

    /// Whether the count is raised.
    pub fn is_raised(self) -> bool
        ensures value { result ≡ is_raised self }
    {
        matches!(self, RaiseVerdict::Raised)
    }
}

/// What was decided of a raise.
#[derive(Clone, Copy, Drop)]
pub struct Raise {
    pub verdict: RaiseVerdict,
    /// Whether the append of this event failed.
    pub io_failed: bool,
}

/// The table has decided as many events as allowed, and nothing has changed.
#[derive(Clone, Copy, Drop)]
pub struct Full;
