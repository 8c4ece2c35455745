//! After how many connections no more are accepted.
ghost use Rattle.std.specs.Prelude.{◌≡◌};
ghost use Rattle.chpw_transfers.specs.Bounded.{allows_more as allows};

/// After how many connections no more are accepted, those that come as datagrams among them.
#[derive(Clone, Copy, Drop)]
pub enum AcceptLimit {
    /// However many there are, it goes on.
    Unlimited,
    /// After this many.
    Of(u64),
}

impl AcceptLimit {
    /// Whether one more is accepted, after this many.
    pub(crate) fn allows_more(self, accepted: u64) -> bool
        ensures value { result ≡ allows self accepted }
    {
        match self {
            AcceptLimit::Unlimited => true,
            AcceptLimit::Of(count) => accepted < count,
        }
    }
}
