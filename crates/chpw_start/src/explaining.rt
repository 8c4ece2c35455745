//! What a journal says at its fault: whose record that is, and what was wanted of it.
ghost use Rattle.std.specs.Prelude.{◌≡◌, ◌++◌, IfOk, IfSome, List, ℕ, Option, true};
ghost use Rattle.chpw_rules.specs.Fitting.{config_fits};
ghost use Rattle.chpw_journal.specs.Explaining.{explanation_text, place_text};
ghost use Rattle.chpw_start.specs.Explaining.{IsExplainedBy, IsExplainedOf};

use crate::files::{open_file, settings};
use chpw_journal::{Explanation, RestoreFault, explain_file, put_explanation, put_place};
use chpw_rules::Config;
use chpw_table::Table;
use std::alloc::{AllocError, Global};
use std::fs::{File, Files};
use std::io::Read;

/// What the journal at a path says at this fault that it has over the configuration with this text. The journal is only read,
/// and not locked; none where it can't be read, nothing more can be told, or memory is refused.
pub fn explain_journal<R: Files<File = File> + AllocGlobal>(
    rt: &R,
    text: &[u8],
    journal: &str,
    fault: RestoreFault,
) -> Option<Explanation>
    ensures told { IfSome result (IsExplainedBy text.now fault) }
{
    let Ok(config) = settings(rt.alloc(), text) else {
        return None;
    };
    let Ok(file) = open_file(rt, journal) else {
        return None;
    };
    match explained(rt.alloc(), config, file, fault) {
        Ok(found) => found,
        Err(_) => None,
    }
}

// What the whole journal in a file says at this fault that it has over a configuration.
fn explained<F: Read + Drop>(
    alloc: Global,
    config: Config,
    file: F,
    fault: RestoreFault,
) -> Result<Option<Explanation>, AllocError>
    requires fits { config_fits config ≡ true }
    ensures told { IfOk result (λ found. IfSome found (IsExplainedOf config (F.remaining file) fault)) }
{
    let table = Table::start(alloc, config, -1)?;
    explain_file(alloc, table, file, fault)
}

/// It as a line of its own: `at 8: alice: version 5, wanted 4`.
pub fn explanation_line(alloc: Global, explanation: &Explanation) -> Result<Vec<u8>, AllocError>
    ensures value { IfOk result (λ text. text.items ≡ place_text explanation.now ++ explanation_text explanation.now) }
{
    let mut text = Vec::new(alloc);
    put_place(&mut text, explanation)?;
    put_explanation(&mut text, explanation)?;
    Ok(text)
}

/// It behind the fault: `alice: version 5, wanted 4`.
pub fn explanation_words(alloc: Global, explanation: &Explanation) -> Result<Vec<u8>, AllocError>
    ensures value { IfOk result (λ text. text.items ≡ explanation_text explanation.now) }
{
    let mut text = Vec::new(alloc);
    put_explanation(&mut text, explanation)?;
    Ok(text)
}
