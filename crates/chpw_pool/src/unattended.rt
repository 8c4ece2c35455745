//! For programs of cases alone: a pool without a KDC and without a control socket.

use chpw_connections::Unconfirmed;
use chpw_kdc::{KdcDialog, Notice, ProtocolFault};
use chpw_reactor::{KdcTerms, StatusReporter};
use chpw_transfers::ConnectionCounts;
use mio::net::{UnixListener, UnixStream};
use std::alloc::Global;

/// Neither a KDC nor a control socket: no reply waits, and nobody asks for the status.
#[derive(Clone, Copy, Drop)]
pub(crate) struct Unattended;

impl KdcTerms for Unattended {
    fn wait(&self) -> u64 {
        0
    }

    fn connect(&mut self) -> Option<UnixStream> {
        None
    }

    fn connected(&mut self) {}

    fn confirmed(&mut self) {}

    fn lost(&mut self, _fault: Option<ProtocolFault>) {}

    fn tell(&mut self, _notice: Notice) {}

    fn unconfirmed(&mut self, _change: Unconfirmed) {}
}

impl StatusReporter for Unattended {
    type FileReadings = ();

    fn listener(&mut self) -> Option<UnixListener> {
        None
    }

    fn file_readings(&self) {}

    fn status(
        &mut self,
        alloc: Global,
        _files: (),
        _standing: &ConnectionCounts,
        _kdc: Option<&KdcDialog>,
    ) -> Vec<u8> {
        Vec::new(alloc)
    }
}
