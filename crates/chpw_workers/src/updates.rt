//! What the KDC says of a principal, decided by a worker.
ghost use Rattle.std.specs.Prelude.{◌≡◌, List, Option, IfOk, OnErr, IfSome, true};
ghost use Rattle.chpw_record.specs.declared.key.KeyRow.{KeyRow as key_spec};
ghost use Rattle.chpw_rules.specs.declared.name.Name.{Name as name_spec};
ghost use Rattle.chpw_table.specs.declared.history.Event.TheVariants.{Update};
ghost use Rattle.chpw_table.specs.Times.{IsMoment};
ghost use Rattle.chpw_table.specs.Updates.{update_fits};
ghost use Rattle.chpw_decider.specs.Deciding.{AddsEvent};
ghost use Rattle.chpw_book.specs.Newest.{IsMadeHeld, IsNewestHeld};

use chpw_book::{AtDesk, DeskName, DeskUpdateFault, DeskUpdateRefused};
use chpw_decider::Decider;
use chpw_record::KeyRow;
use chpw_rules::Name;
use chpw_table::{Digest, Durability, JournalSink, KdcUpdate, Moment, UpdateVerdict};
use std::sync::Wait;

/// What the KDC says of a principal, within the limits of a table.
#[derive(Drop)]
pub struct FittingUpdate {
    update: KdcUpdate,
    ghost fits: { update_fits update ≡ true },
}

impl FittingUpdate {
    /// The update, if it is within the limits (`KdcUpdate::fits`).
    pub fn of(update: KdcUpdate) -> Option<FittingUpdate>
        ensures some { IfSome result (λ fitting. fitting.update ≡ update) }
    {
        if update.fits() {
            Some(FittingUpdate { update })
        } else {
            None
        }
    }

    pub fn update(self) -> KdcUpdate
        ensures value { result ≡ self.update }
        ensures fits { update_fits result ≡ true }
    {
        let FittingUpdate { update } = self;
        update
    }
}

/// What a worker did about an update.
#[derive(Drop)]
pub struct UpdateTurn {
    pub update: KdcUpdate,
    pub outcome: Result<UpdateVerdict, DeskUpdateFault>,
    /// The newest key that is held of its name then, or none if the name isn't held.
    pub newest: Option<KeyRow>,
}

/// A decider that also takes what the KDC says into its table, and tells keys of a name.
pub trait KdcDecider: Decider {
    /// These may be the keys that are held of a name, the newest first, or the name may not be held.
    ghost holds: { Self → name_spec → Option (List key_spec) → Type 0 };

    /// Decides an update at a moment, whose seconds are 0 to `chpw_table::LAST_SECOND`, and adds a receipt of it at the
    /// end. A refusal adds none. Its record is on the disk when `durability` says.
    fn update(
        &mut self,
        now: Moment,
        update: KdcUpdate,
        durability: Durability,
    ) -> Result<UpdateVerdict, DeskUpdateFault>
        requires moment { IsMoment now }
        requires fits { update_fits update ≡ true }
        ensures adds { IfOk result (λ v. AddsEvent (Self.gathered self.old) (Self.gathered self.new) now (Update update v)) }
        ensures refused { OnErr result (Self.gathered self.new ≡ Self.gathered self.old) }
        ensures follows { Self.follows self.old self.new };

    /// The newest key that is held of a name; none if the name isn't held.
    fn newest_key(&mut self, name: &Name) -> Option<KeyRow>
        ensures value { IsNewestHeld (holds self.new) name.now result }
        ensures receipts { Self.gathered self.new ≡ Self.gathered self.old }
        ensures follows { Self.follows self.old self.new };

    /// The newest of the keys that are held of a name that is this password's; none if none of them is.
    fn made_key(&self, name: &Name, digest: &Digest) -> Option<KeyRow>
        ensures value { IsMadeHeld (holds self.now) name.now digest.now result };

    /// What might be held before, still might have been.
    ghost still_holds: { (a b : Self) (name : name_spec) (keys : Option (List key_spec)) → Self.follows a b → holds a name keys → holds b name keys };
}

impl<'a, D: DeskName, S: JournalSink, R: Wait> KdcDecider for AtDesk<'a, D, S, R> {
    ghost use Rattle.chpw_changelog.specs.Pens.{opening_state};
    ghost use Rattle.chpw_book.specs.Newest.{AreHeldAfter};

    ghost holds = { λ a name keys. AreHeldAfter (opening_state D.root) name keys };

    fn update(
        &mut self,
        now: Moment,
        update: KdcUpdate,
        durability: Durability,
    ) -> Result<UpdateVerdict, DeskUpdateFault> {
        match self
            .desk
            .update(self.rt, self.pass, now, update, durability)
        {
            Ok(verdict) => Ok(verdict),
            Err(DeskUpdateRefused { fault, update: _ }) => Err(fault),
        }
    }

    fn newest_key(&mut self, name: &Name) -> Option<KeyRow> {
        self.desk.newest_key(self.rt, name)
    }

    fn made_key(&self, name: &Name, digest: &Digest) -> Option<KeyRow> {
        self.desk.made_key(self.rt, name, digest)
    }

    ghost still_holds = { λ a b name keys same h. h };
}
