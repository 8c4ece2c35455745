//! Which names are principals', for the rules that name them.
ghost use Rattle.std.specs.Prelude.{◌≡◌, Bool, IfOk};
ghost use Rattle.std.specs.BTreeSet.{contains};
ghost use Rattle.chpw_rules.specs.declared.name.Name.{Name as TheName};
ghost use Rattle.chpw_rules.specs.Names.{name_cmp};
ghost use Rattle.chpw_warnings.specs.Rules.{is_listed};

use chpw_rules::{Name, PrincipalRow};
use std::alloc::{AllocError, Global};
use std::collections::BTreeSet;

/// Says which names are principals'.
pub trait PrincipalNames {
    /// Whether the name is a principal's.
    ghost has: { Self → TheName → Bool };

    /// Whether the name is a principal's.
    fn has(&self, name: &Name) -> bool
        ensures { result ≡ has self.now name.now };
}

// The names in a set, which stays fast with many.
impl PrincipalNames for BTreeSet<Name> {
    ghost use Rattle.std.specs.BTreeSet.{contains};
    ghost use Rattle.chpw_rules.specs.Names.{name_cmp};

    ghost has = { contains name_cmp };

    fn has(&self, name: &Name) -> bool {
        self.contains(name)
    }
}

/// The names of these principals.
pub(crate) fn names_of(
    alloc: Global,
    principals: &[PrincipalRow],
) -> Result<BTreeSet<Name>, AllocError>
    ensures value { IfOk result (λ names. (name : TheName)
        → contains name_cmp names name ≡ is_listed principals.now name) }
{
    let mut names = BTreeSet::new(alloc);
    for principal in principals {
        names.insert(principal.name.clone()?)?;
    }
    Ok(names)
}
