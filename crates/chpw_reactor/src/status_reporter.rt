//! The service's side of its control socket.

use chpw_kdc::KdcDialog;
use chpw_transfers::ConnectionCounts;
use mio::net::UnixListener;
use std::alloc::Global;

/// Answers for the service at its control socket.
pub trait StatusReporter {
    /// What a status tells of files.
    type FileReadings;

    /// The socket's listener, which doesn't block; it is asked for once. None without a control socket.
    fn listener(&mut self) -> Option<UnixListener>;

    /// Reads what a status tells of files. This may wait for the log's lock and for a disk, so no lock is held meanwhile.
    fn file_readings(&self) -> Self::FileReadings;

    /// The answer to `status` by these readings, for this standing of the connections, and of the KDC, if there is one. Empty if
    /// memory is refused.
    fn status(
        &mut self,
        alloc: Global,
        files: Self::FileReadings,
        standing: &ConnectionCounts,
        kdc: Option<&KdcDialog>,
    ) -> Vec<u8>;
}
