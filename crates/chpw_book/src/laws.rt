//! Laws of the accepted changes.
ghost use Rattle.chpw_book.specs.ChangeLaws.{EntryAddsItsChange, ChangesAreCounted, BeginningsAreHistories, KeptListsGoOn, NamesAreKnown};
ghost use Rattle.chpw_book.specs.RisingLaws.{VersionsRise, LaterListsShowNoOlder, LaterListsShowNoLower};
ghost use Rattle.chpw_book.specs.ShownLaws.{LookupsShowHistories, LookupsAreOfHistories};

/// An accepted entry adds its change to the list, and no other entry adds any; the list is as long as there are
/// accepted entries; each beginning of it is the list of a beginning of the history. A list kept beside a table goes on
/// with the changes that the table makes. A name that has keys had some at the opening or was adopted since. Each change
/// of a key raises by one the version that is shown before it, what the KDC says raises a version or removes a name, and
/// each change of the count raises the count, so no longer list shows a lower count or, of a name that wasn't removed, an
/// older version. A lookup after the list shows what a table shows to which the history
/// leads; so each lookup at a desk shows what a table shows after a legal history, of which beginnings accepted what the
/// pass had seen and was told.
#[tactic(auto, using(crate::proofs::LawLemmas::change_laws))]
pub fn changes()
    ensures adds { EntryAddsItsChange }
    ensures counted { ChangesAreCounted }
    ensures begins { BeginningsAreHistories }
    ensures goes_on { KeptListsGoOn }
    ensures known { NamesAreKnown }
    ensures rise { VersionsRise }
    ensures later { LaterListsShowNoOlder }
    ensures count { LaterListsShowNoLower }
    ensures shown { LookupsShowHistories }
    ensures lookups { LookupsAreOfHistories }
{}
