//! Layer: threads and sockets. Touches: files, the environment and sockets. Called by: chpw_service.
//!
//! What a service has of its host: the sockets that it binds, the control socket's path, the service manager; the limits that its
//! options ask for; its late faults, and the status that it tells.
#![tactic(auto)]

mod binding;
mod control;
mod late_fault;
mod limits;
mod notification;
mod readings;
mod service_manager;
mod socket_address;
mod status;

pub use binding::{BoundSockets, bind};
pub use control::{control_socket, take_away};
pub use late_fault::LateFault;
pub use limits::{limit_of, limits_of};
pub use readings::{FileReadings, KdcReadings, Readings};
pub use service_manager::{notify_ready, notify_stopping};
pub use status::{StatusSources, answer_of};
