//! What a warning is about.
ghost use Rattle.std.specs.Prelude.{◌≡◌};
ghost use Rattle.chpw_warnings.specs.Settings.{reads};
ghost use Rattle.chpw_warnings.specs.declared.warning.Place.TheVariants.{File, Policy, PrincipalKey};

use chpw_rules::{Items, Name};

/// A table of a configuration's file; elements of lists are numbered from 1.
#[derive(Clone, Copy, Drop)]
pub enum Place {
    /// The file itself.
    File,
    /// `[service]`.
    Service,
    /// A `[[service.key]]`.
    ServiceKey(usize),
    /// `[policy]`.
    Policy,
    /// A `[[rule]]`.
    Rule(usize),
    /// A `[[principal]]`.
    Principal(usize),
    /// A `[[principal.key]]` of a principal.
    PrincipalKey { principal: usize, key: usize },
    /// `[kdc]`.
    Kdc,
}

impl Place {
    /// Whether the setting of this name is read in this table (docs/ADMIN.md, The configuration).
    pub fn reads(self, key: &str) -> bool
        ensures value { result ≡ reads self key.now }
    {
        match self {
            Place::File => is_file_setting(key),
            Place::Service => key == "realm" || key == "max_entries" || key == "key",
            Place::ServiceKey(_) => key == "kvno" || key == "etype" || key == "key",
            Place::Policy => is_policy_setting(key),
            Place::Rule(_) => key == "actor" || key == "target",
            Place::Principal(_) => key == "name" || key == "key",
            Place::PrincipalKey { .. } => is_key_setting(key),
            Place::Kdc => key == "include" || key == "exclude",
        }
    }
}

fn is_file_setting(key: &str) -> bool
    ensures value { result ≡ reads File key.now }
{
    key == "service" || key == "policy" || key == "rule" || key == "principal" || key == "kdc"
}

fn is_policy_setting(key: &str) -> bool
    ensures value { result ≡ reads Policy key.now }
{
    key == "min_length"
        || key == "min_classes"
        || key == "depth"
        || key == "iterations"
        || key == "set_needs_initial"
}

fn is_key_setting(key: &str) -> bool
    ensures value { result ≡ reads (PrincipalKey 0 0) key.now }
{
    key == "kvno" || key == "iterations" || key == "aes128" || key == "aes256"
}

/// Whom a rule names.
#[derive(Clone, Copy, Drop)]
pub enum Party {
    Actor,
    Target,
}

/// Why a rule's name may be a mistake, in the order of the checks.
#[derive(Clone, Copy, Drop)]
pub enum Doubt {
    /// It has an `@`: no name of a configuration has a realm.
    Realm,
    /// It is no principal's.
    Unknown,
}

/// What a configuration may not mean.
#[derive(Drop)]
pub enum Warning {
    /// Nothing reads the setting of this name.
    Unread {
        place: Place,
        key: Items<u8>,
    },
    /// The name in the rule of this number, from 1.
    Named {
        rule: usize,
        party: Party,
        name: Name,
        doubt: Doubt,
    },
    /// The rule of this number lets the actor set everybody's password.
    Everybody {
        rule: usize,
        actor: Name,
    },
}
