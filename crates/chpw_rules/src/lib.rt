//! Layer: the machine. Touches: memory. Called by: most crates above.
//!
//! Names, the policy, the rules and the configuration of the service, with their limits.
#![tactic(auto)]

mod config;
mod fitting;
mod items;
mod limits;
mod name;
mod password;
mod pattern;
mod policy;
mod rules;

pub use config::{Config, KeyBytes, PrincipalRow, ServiceRow};
pub use fitting::{Identified, is_in_list};
pub use items::Items;
pub use limits::{
    AES128_LENGTH, AES256_LENGTH, COMPONENT_COUNTS, COMPONENT_LENGTHS, DEPTHS, ENTRY_COUNTS,
    ETYPES, ITERATION_COUNTS, KEY_COUNTS, KVNOS, Limits, MIN_CLASS_COUNTS, MIN_LENGTHS,
    PATTERN_COUNTS, PATTERN_LENGTHS, PRINCIPAL_COUNTS, REALM_LENGTHS, RULE_COUNTS,
    SERVICE_KEY_COUNTS, key_length,
};
pub use name::Name;
pub use password::{Facts, password_facts};
pub use pattern::{NamePattern, NamePatterns};
pub use policy::Policy;
pub use rules::{Rule, Rules};
