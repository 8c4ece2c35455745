//! How many slots are noted for the caller, and which.
ghost use Rattle.std.specs.Prelude.{◌≡◌, length};
ghost use Rattle.chpw_connections.specs.Held.{changed_of};
ghost use Rattle.chpw_connections.specs.Noting.{is_noted_by};

use crate::set::Connections;

impl Connections {
    /// How many slots need attention: `take_changed` gives these first, whatever is noted meanwhile.
    pub fn changed_count(&self) -> usize
        ensures value { result ≡ length (changed_of self.now) }
    {
        self.changed.len()
    }

    /// Whether a slot is noted as one that needs attention.
    pub fn is_noted(&self, slot: usize) -> bool
        ensures value { result ≡ is_noted_by self.now slot }
    {
        self.changed.contains(&slot)
    }
}
