//! The names read so far, in a sorted set, so that reading stays fast with many.
ghost use Rattle.std.specs.Prelude.{◌≡◌, ◌++◌, ◌∷◌, [], not, List, Some, IfOk};
ghost use Rattle.std.specs.List.{list_any};
ghost use Rattle.chpw_rules.specs.declared.name.Name.{Name};
ghost use Rattle.chpw_rules.specs.Names.{is_same_name, name_of};
ghost use Rattle.chpw_config.specs.Seen.{Knows};

use std::alloc::{AllocError, Global};
use std::collections::BTreeSet;

/// A set of no texts.
#[tactic(auto, unfolding(crate::specs::Seen::Knows))]
pub fn no_names<'a>(alloc: Global) -> BTreeSet<&'a str>
    ensures value { Knows result [] }
{
    BTreeSet::new(alloc)
}

/// Adds a text that spells a name; whether the name is new.
#[tactic(auto, unfolding(crate::specs::Seen::Knows))]
pub fn add_name<'a>(seen: &mut BTreeSet<&'a str>, text: &'a str) -> Result<bool, AllocError>
    ensures value { (names : List Name) (name : Name) → Knows seen.old names
        → name_of text.now ≡ Some name
        → IfOk result (λ new. new ≡ not (list_any (is_same_name name) names)) }
    ensures added { (names : List Name) (name : Name) → Knows seen.old names
        → name_of text.now ≡ Some name
        → IfOk result (λ new. Knows seen.new (names ++ name ∷ [])) }
{
    Ok(seen.insert(text)?)
}
