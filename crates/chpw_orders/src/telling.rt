//! What a journal says where an order meets its fault.
ghost use Rattle.std.specs.Prelude.{IfSome};
ghost use Rattle.chpw_orders.specs.Rereading.{IsTold};

use chpw_journal::RestoreFault;
use chpw_rules::Items;
use chpw_start::{explain_journal, explanation_words};
use std::fs::{File, Files};

/// What the journal at a path says at this fault that it has over the configuration with this text, if more can be told.
pub(crate) fn told_of<R: Files<File = File> + AllocGlobal>(
    rt: &R,
    text: &[u8],
    journal: &str,
    fault: RestoreFault,
) -> Option<Items<u8>>
    ensures told { IfSome result (λ words. IsTold text.now fault words) }
{
    let explanation = explain_journal(rt, text, journal, fault)?;
    match explanation_words(rt.alloc(), &explanation) {
        Ok(words) => Some(Items::of(words)),
        Err(_) => None,
    }
}
