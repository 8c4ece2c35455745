//! Laws of a service's run, over its definitions alone.
ghost use Rattle.chpw_desks.specs.ServiceRuns.{RunsAreServiceRuns};

/// A run of the service is one of histories: each is legal, and goes on from what the one before it left, or from a reload of that;
/// what their accepted entries add is well-formed, and the table is what they lead to.
pub fn runs<R, L>()
    ensures histories { RunsAreServiceRuns R L }
{}
