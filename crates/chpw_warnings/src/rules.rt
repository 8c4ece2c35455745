//! Rules that may not mean what was meant.
ghost use Rattle.std.specs.Prelude.{◌≡◌, ◌++◌, IfOk, OnOk};
ghost use Rattle.chpw_warnings.specs.Rules.{config_warnings, doubt_of, has_at, part_has_at, of_name, of_rule, of_target, rule_warnings};

use crate::names::{PrincipalNames, names_of};
use crate::settings::setting_warnings;
use crate::warning::{Doubt, Party, Warning};
use chpw_rules::{Config, Items, Name, Rule};
use std::alloc::{AllocError, Global};

/// The warnings of a configuration without a fault that this text sets: those of its settings, then those of its rules,
/// whose names are taken for principals' if the configuration has them.
pub fn config_warnings(
    alloc: Global,
    text: &str,
    config: &Config,
) -> Result<Vec<Warning>, AllocError>
    ensures value { IfOk result (λ warnings. warnings.items ≡ config_warnings text.now config.now) }
{
    let mut warnings = setting_warnings(alloc, text)?;
    let names = names_of(alloc, config.principals.as_slice())?;
    put_rule_warnings(&mut warnings, &names, config.rules.list.as_slice())?;
    Ok(warnings)
}

/// Adds the warnings of rules, where these names are principals'. Each rule's come in this order: its actor is in doubt,
/// its target is, it is for everybody.
pub fn put_rule_warnings<N: PrincipalNames>(
    warnings: &mut Vec<Warning>,
    names: &N,
    rules: &[Rule],
) -> Result<(), AllocError>
    ensures value { OnOk result (warnings.new.items
        ≡ warnings.old.items ++ rule_warnings (N.has names.now) 1 rules.now) }
{
    let mut others = rules;
    while let [rule, rest @ ..] = others {
        put_rule(warnings, names, rules.len() - rest.len(), rule)?;
        others = rest;
    }
    Ok(())
}

// The rule of this number.
fn put_rule<N: PrincipalNames>(
    warnings: &mut Vec<Warning>,
    names: &N,
    number: usize,
    rule: &Rule,
) -> Result<(), AllocError>
    ensures value { OnOk result (warnings.new.items
        ≡ warnings.old.items ++ of_rule (N.has names.now) number rule.now) }
{
    put_name(warnings, names, number, Party::Actor, &rule.actor)?;
    match &rule.target {
        Some(target) => put_name(warnings, names, number, Party::Target, target),
        None => {
            let actor = rule.actor.clone()?;
            warnings.push(Warning::Everybody {
                rule: number,
                actor,
            })?;
            Ok(())
        }
    }
}

// A name in the rule of this number.
fn put_name<N: PrincipalNames>(
    warnings: &mut Vec<Warning>,
    names: &N,
    number: usize,
    party: Party,
    name: &Name,
) -> Result<(), AllocError>
    ensures value { OnOk result (warnings.new.items
        ≡ warnings.old.items ++ of_name (N.has names.now) number party name.now) }
{
    if let Some(doubt) = doubt_of(names, name) {
        let name = name.clone()?;
        warnings.push(Warning::Named {
            rule: number,
            party,
            name,
            doubt,
        })?;
    }
    Ok(())
}

// Why a name may be a mistake, if these are the principals'.
fn doubt_of<N: PrincipalNames>(names: &N, name: &Name) -> Option<Doubt>
    ensures value { result ≡ doubt_of (N.has names.now) name.now }
{
    if has_at(name) {
        Some(Doubt::Realm)
    } else if names.has(name) {
        None
    } else {
        Some(Doubt::Unknown)
    }
}

// Whether one of its components has an `@`.
fn has_at(name: &Name) -> bool
    ensures value { result ≡ has_at name.now }
{
    name.parts.as_slice().iter().any(|part| is_with_at(part))
}

// Whether a component has an `@`.
fn is_with_at(part: &Items<u8>) -> bool
    ensures value { result ≡ part_has_at part.now }
{
    part.as_slice().contains(&b'@')
}
