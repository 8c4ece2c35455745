//! Laws of a reload, over its definitions alone.
ghost use Rattle.chpw_reload.specs.Laws.{IdsStay, KeysStay, KeysAreGiven, CountStays, TimesStay, ReloadsAreSound};
ghost use Rattle.chpw_reload.specs.Laws.{LaterStartsFind, LaterStartsRead, StartsKnowAll, StartsFindAgain, FilesGoOn};
ghost use Rattle.chpw_reload.specs.Laws.{TwoPartsAreOne, ReloadedIsReload, ReloadsMayCompact, StartsMayCompact};
ghost use Rattle.chpw_reload.specs.RunLaws.{RunsStaySound, UsedOverReloads, NamesOverReloads, CountOverReloads};
ghost use Rattle.chpw_reload.specs.RunLaws.{QuietOverReloads, RunsBegin, RunsGoOn, RunsReload, InARowFollowOn};

/// What a reload keeps of what the history before it left: an id that was used is used; each name that was held is
/// held, and its keys, as many as the new depth keeps, are its newest still; the count of new keys never falls; the
/// clock and the quiet time stay. A name of the new file has the keys that the file and the journal give. The next history opens
/// within the limits.
pub fn reloads()
    ensures ids { IdsStay }
    ensures keys { KeysStay }
    ensures given { KeysAreGiven }
    ensures count { CountStays }
    ensures times { TimesStay }
    ensures sound { ReloadsAreSound }
{}

/// What `prepare` and `finish` give is a reload. A journal that is read in two parts, as they do, is read as if at
/// once.
#[tactic(auto, using(crate::proofs::PartsLemmas::two_parts_are_one, crate::proofs::PartsLemmas::reloaded_is_reload))]
pub fn parts()
    ensures parts { TwoPartsAreOne }
    ensures reload { ReloadedIsReload }
{}

/// What a start over the new file finds in the journal of all that was before a reload and of the runs after it: each
/// of the file's names with the keys that were held last, and no other name, provided that no record after the reload
/// is of a name that the file lacks. If one is, no start is possible. Without a reload a start finds what the runs left
/// that began with the same file.
pub fn later_starts()
    ensures find { LaterStartsFind }
    ensures read { LaterStartsRead }
    ensures known { StartsKnowAll }
    ensures again { StartsFindAgain }
{}

/// When a compact journal (`chpw_journal::compact_journal`) may be made: over a table that a file opens with, for a
/// table that was left by a service which began with that file or reloaded it last. `chpw_journal::laws::compact` says
/// what it gives.
pub fn compacting()
    ensures reload { ReloadsMayCompact }
    ensures start { StartsMayCompact }
{}

/// A new file is not refused for the journal or for keys if the keys that its principals have in a file over which a
/// start would find what was left are their newest, and it has those that the journal has a record of. So policy, rules and
/// limits may change, new principals may be added, and principals that were never changed may be left out.
#[tactic(auto, using(crate::proofs::AlikeLemmas::files_go_on))]
pub fn files()
    ensures go_on { FilesGoOn }
{}

/// Along the histories of a service, each opened with the table that the one before it left or with a reload of it: all
/// stays within the limits; an id that was used is never judged past Replay again; no name is lost; the count of new
/// keys never falls; quiet time and realm stay. A first history is such a run, and one more history, which opens with
/// the table that was left or with a reload of it, extends it. Histories without a reload between them are runs that
/// wrote one journal (`chpw_journal::laws`).
#[tactic(auto, using(crate::proofs::RunLemmas::run_laws))]
pub fn runs()
    ensures sound { RunsStaySound }
    ensures used { UsedOverReloads }
    ensures names { NamesOverReloads }
    ensures count { CountOverReloads }
    ensures quiet { QuietOverReloads }
    ensures begin { RunsBegin }
    ensures go_on { RunsGoOn }
    ensures reload { RunsReload }
    ensures in_a_row { InARowFollowOn }
{}
