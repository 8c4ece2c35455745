//! The agent at the KDC's database, as a service knows it.
use chpw_connections::Unconfirmed;
use chpw_kdc::{Notice, ProtocolFault};
use mio::net::UnixStream;

/// The agent at the KDC's database, as a service has it: where it is, how long replies wait for it, and a report of what happens
/// there.
pub trait KdcTerms {
    /// The most milliseconds that the reply to a change waits.
    fn wait(&self) -> u64;

    /// A connection to it; none if nobody listens.
    fn connect(&mut self) -> Option<UnixStream>;

    /// The agent has answered over a new connection: it has sent something, and nothing that it may not.
    fn connected(&mut self);

    /// The agent has confirmed a change.
    fn confirmed(&mut self);

    /// The connection has ended, or couldn't be made; for this reason if the agent has said what it may not.
    fn lost(&mut self, fault: Option<ProtocolFault>);

    /// The agent has refused something, or something else is to be told once.
    fn tell(&mut self, notice: Notice);

    /// The reply to this change has waited as long as it may, and the agent hasn't confirmed it: it is sent so, or dropped if
    /// the KDC has to be in reach.
    fn unconfirmed(&mut self, change: Unconfirmed);
}
