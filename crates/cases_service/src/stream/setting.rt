//! What a world is started with.

use std::alloc::Global;
use std::io;
use support_realm::World;

/// What worlds are started with: the text of a configuration, the second until which its service refuses requests, and
/// whether it answers requests of RFC 3244 alone.
#[derive(Drop)]
pub struct Setting {
    pub config: String,
    pub quiet_until: i64,
    pub rfc3244_only: bool,
}

impl Setting {
    /// The configuration's service, and its table with no event yet.
    pub fn start(&self, alloc: Global) -> io::Result<World> {
        let World { service, alone } = World::start(alloc, self.config.as_str(), self.quiet_until)?;
        let service = if self.rfc3244_only {
            service.rfc3244_only()
        } else {
            service
        };
        Ok(World { service, alone })
    }
}
