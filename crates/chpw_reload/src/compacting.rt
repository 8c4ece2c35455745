//! When a compact journal may be made.
ghost use Rattle.std.specs.Prelude.{◌≡◌, false, true};
ghost use Rattle.chpw_reload.specs.Compacting.{GoesWith};

use crate::comparing::kept_by;
use chpw_table::Table;

/// Whether a compact journal may be made for the held table over a base, the table that the configuration opens with
/// now: they have one realm and keep as many keys, and its count of new keys isn't greater than the held one.
/// `laws::compacting` and chpw_journal's laws require this. A principal of the base that isn't held is taken for a removed
/// one, so the configuration is to be the one that the service began with or reloaded last.
pub fn goes_with(base: &Table, held: &Table) -> bool
    ensures goes { result ≡ true → GoesWith base.now.state held.now.state }
    ensures apart { result ≡ false → GoesWith base.now.state held.now.state → ⊥ }
{
    base.realm() == held.realm() && kept_by(base) == kept_by(held) && base.count() <= held.count()
}
