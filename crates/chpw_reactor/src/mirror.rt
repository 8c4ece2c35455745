//! What is told of a table to the dialog with the agent at the KDC's database.
ghost use Rattle.std.specs.Prelude.{◌≡◌, ℕ, IfSome, None, Some};
ghost use Rattle.chpw_table.specs.State.{keys_held};
ghost use Rattle.chpw_book.specs.Newest.{newest_of};
ghost use Rattle.chpw_kdc.specs.Dialogs.{State as Dialog, after_want_comparison, at_start};
ghost use Rattle.chpw_reactor.specs.Tasks.{IsNewestTold, IsTableTold};

use crate::engine::{Engine, milliseconds};
use chpw_kdc::KdcDialog;
use chpw_rules::{Name, NamePatterns};
use chpw_table::Table;
use chpw_transfers::State;
use std::sync::Wait;
use std::time::Clock;

impl Engine {
    /// A desk is to open with this table, and these names of the KDC's are the service's: table and KDC are compared.
    pub fn hold_table<R: Wait>(&self, rt: &R, table: &Table, names: NamePatterns) {
        open_with(&mut self.hub.lock(rt).state, table, names);
    }
}

// A desk is to open with this table, and these names of the KDC's are the service's.
fn open_with(state: &mut State, table: &Table, names: NamePatterns)
    ensures names { state.new.names ≡ Some names }
    ensures told { IfSome state.old.kdc (λ old. (told : Dialog) × IsTableTold table.now.state old told
        × (state.new.kdc ≡ Some (after_want_comparison told))) }
    ensures none { state.old.kdc ≡ None → state.new.kdc ≡ None }
    ensures rest { state.new ≡ record state.old { kdc = state.new.kdc; names = state.new.names } }
{
    state.names = Some(names);
    if let Some(kdc) = &mut state.kdc {
        hold_table(kdc, table);
        kdc.want_comparison();
    }
}

/// A dialog that begins now, with a service that opens with this table.
pub fn dialog_with<R: Clock + AllocGlobal>(rt: &R, table: &Table) -> KdcDialog
    ensures told { (now : ℕ) × IsTableTold table.now.state (at_start now) result }
{
    let mut kdc = KdcDialog::new(rt.alloc(), milliseconds(rt));
    hold_table(&mut kdc, table);
    kdc
}

// The table has these keys as the newest of its names. What memory runs out for is looked for when table and KDC are compared.
fn hold_table(kdc: &mut KdcDialog, table: &Table)
    ensures told { IsTableTold table.now.state kdc.old kdc.new }
{
    for place in 0..u32::MAX {
        let Some(name) = table.name_at(place) else {
            return;
        };
        hold_newest(kdc, table, name);
    }
}

// The table has this key as the newest of a name.
fn hold_newest(kdc: &mut KdcDialog, table: &Table, name: &Name)
    ensures told { IsNewestTold name.now (newest_of (keys_held table.now.state name.now)) kdc.old kdc.new }
{
    let Some([newest, ..]) = table.keys_of(name) else {
        return;
    };
    let is_held = match name.clone() {
        Ok(name) => kdc.hold(name, *newest).is_ok(),
        Err(_) => false,
    };
    if !is_held {
        kdc.want_lost();
    }
}
