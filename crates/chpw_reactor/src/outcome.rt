//! How a pool ended.
ghost use Rattle.std.specs.Prelude.{◌≡◌, Some, None, true, if◌then◌else◌};
ghost use Rattle.chpw_transfers.specs.Bounded.{allows_more};
ghost use Rattle.chpw_reactor.specs.Pools.{Ends};

use chpw_sockets::PoolFault;
use chpw_transfers::AcceptLimit;

/// The result of a pool.
#[derive(Clone, Copy, Drop)]
pub struct Pool {
    /// The connections that were accepted, each until it ended.
    pub served: u64,
    pub fault: Option<PoolFault>,
}

/// This many connections were accepted. If they are fewer than were wanted, the listener failed; so it did in any case
/// if there is no limit.
pub fn outcome_of(accepted: u64, wanted: AcceptLimit) -> Pool
    ensures ends { Ends wanted result }
    ensures served { allows_more wanted accepted ≡ true → result.served ≡ accepted }
    ensures fault { result.fault ≡ (if allows_more wanted accepted then Some PoolFault.Accept else None) }
{
    match wanted {
        AcceptLimit::Of(count) if count <= accepted => Pool {
            served: count,
            fault: None,
        },
        _ => Pool {
            served: accepted,
            fault: Some(PoolFault::Accept),
        },
    }
}
