//! A configuration that was read again, between the thread that reads it and the one that opens the next desk.
ghost use Rattle.std.specs.Prelude.{◌≡◌, List, Option, ℕ};
ghost use Rattle.chpw_rules.specs.declared.config.Config.{Config as Settings};
ghost use Rattle.chpw_reload.specs.Reloading.{IsPrepared};

use chpw_reload::PreparedReload;
use std::marker::Model;

/// The table that a start would open with now. It keeps that it was prepared from some configuration and journal.
#[derive(Drop)]
pub struct CheckedReload {
    renewal: PreparedReload,
}

impl Model for CheckedReload {
    ghost use Rattle.std.specs.Prelude.{List, Option, ℕ};
    ghost use Rattle.chpw_rules.specs.declared.config.Config.{Config as Settings};
    ghost use Rattle.chpw_reload.specs.declared.prepared_reload.PreparedReload.{PreparedReload as TheRenewal};
    ghost use Rattle.chpw_reload.specs.Reloading.{IsPrepared};

    ghost Value = { TheRenewal };

    ghost view = { λ r. r.renewal };

    ghost invariant = { λ r. (file : Settings) × (journal : Option (List ℕ)) × IsPrepared file journal r.renewal };
}

impl CheckedReload {
    /// What was prepared.
    pub fn of(renewal: PreparedReload) -> CheckedReload
        requires prepared { (file : Settings) × (journal : Option (List ℕ)) × IsPrepared file journal renewal }
        ensures value { result ≡ renewal }
    {
        CheckedReload { renewal }
    }

    /// It was prepared.
    pub fn into_renewal(self) -> PreparedReload
        ensures value { result ≡ self }
        ensures prepared { (file : Settings) × (journal : Option (List ℕ)) × IsPrepared file journal result }
    {
        let CheckedReload { renewal } = self;
        renewal
    }
}
