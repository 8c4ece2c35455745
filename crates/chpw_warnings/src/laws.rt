//! Settings that are warned of are read by nothing.
ghost use Rattle.chpw_warnings.specs.Unread.{FilesAreRead, KdcsAreRead, KeysAreRead, PoliciesAreRead, PrincipalsAreRead};
ghost use Rattle.chpw_warnings.specs.Unread.{RulesAreRead, ServiceKeysAreRead, ServicesAreRead};

/// What a table of a configuration sets, and its first fault, depend only on the settings that `Place::reads` names of
/// that table: whatever is warned of may be left out, or have any value.
pub fn nothing_else_is_read()
    ensures files { FilesAreRead }
    ensures services { ServicesAreRead }
    ensures service_keys { ServiceKeysAreRead }
    ensures policies { PoliciesAreRead }
    ensures rules { RulesAreRead }
    ensures principals { PrincipalsAreRead }
    ensures keys { KeysAreRead }
    ensures kdcs { KdcsAreRead }
{}
