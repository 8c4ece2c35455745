//! Laws of restoring, over its definitions alone.
ghost use Rattle.chpw_journal.specs.Laws.{ReadsJournals, RecordsAreJournals, RestoresKeys, RestoresCount, FrontsAreCutOff, OpeningsAreSound};
ghost use Rattle.chpw_journal.specs.HeadingLaws.{HeadingsAreApart, HeadingsAreNoRecords, WholeMayOpen};
ghost use Rattle.chpw_journal.specs.CompactLaws.{CompactGives, CompactIsNext, CompactReads, CompactIsFoundAgain};
ghost use Rattle.chpw_journal.specs.CompactLaws.{CompactMayOpen, OpeningsHoldInRow, RestoredHoldInRow};
ghost use Rattle.chpw_journal.specs.CompactLaws.{RunsHoldInRow, AgreeHoldInRow, RunsMayCompact};
ghost use Rattle.chpw_journal.specs.JoinedLaws.{EventsStaySound, HistoriesStaySound, RunsGoOn, RunsAreLast};
ghost use Rattle.chpw_journal.specs.JoinedLaws.{TablesMayOpen, RestoredMayOpen, ReadMayOpen, TwoRunsFollowOn};

/// The journals of runs of the service, each opened with the principals that the one before it left, are read as their
/// accepted events and in no other way, whether nothing or a torn record follows them; these records are the journals, so as
/// many bytes are kept; and they give each principal the keys that the last run left, those that joined among them, and no
/// principal besides. If each run also opened with the iteration count that the one before it left, they give the count that
/// the last run left. A proper beginning of a record is a torn record. What a configuration that fits opens with is within
/// the limits that this requires of an opening.
pub fn restoring()
    ensures read { ReadsJournals }
    ensures records { RecordsAreJournals }
    ensures keys { RestoresKeys }
    ensures count { RestoresCount }
    ensures torn { FrontsAreCutOff }
    ensures sound { OpeningsAreSound }
{}

/// Runs that follow each other, each opened with what the one before it left. An event leads from a state within the
/// limits to another, and so does a legal history, if what the accepted events add is well-formed. A run with a legal
/// history follows the others if it opens with a table that the last one left, or with one like the first opening's
/// once their records are replayed; so with what `restore` makes of a table like that and of their journal. For two
/// runs under one configuration, the second opened from the first one's journal, this holds with no premise but what
/// opening and closing give.
pub fn runs()
    ensures event { EventsStaySound }
    ensures history { HistoriesStaySound }
    ensures goes_on { RunsGoOn }
    ensures last { RunsAreLast }
    ensures left { TablesMayOpen }
    ensures restored { RestoredMayOpen }
    ensures read { ReadMayOpen }
    ensures two { TwoRunsFollowOn }
{}

/// What a journal begins with. The record of a realm begins as one, and no record of a history does; among those it is none of
/// them. A run may open with what is restored from the journal of others after the heading of its realm, whether that is
/// its record or nothing.
pub fn headings()
    ensures apart { HeadingsAreApart }
    ensures none { HeadingsAreNoRecords }
    ensures opens { WholeMayOpen }
{}

/// About a compact journal (`compact_journal`), made for a state that is within the limits and holds keys in a row, over an
/// opening that keeps as many keys; both have their names in order. Restoring it onto the opening gives each name the keys
/// that the state has of it, no other name, and the greater of both counts. Its records are within the limits, and each may
/// come next. It is read in no other way, with the journals of runs after it that go on from the state, and with nothing or
/// a torn record after those; then a start over it finds what the last run left. A further run may open with what `restore`
/// makes of a table like the opening and of all this.
///
/// Keys in a row, of which each has a higher version than those after it, are held by what a fitting configuration opens
/// with, by what is restored, by what runs leave that go on from such a state, and by a table that agrees with one. So a
/// compact journal may be made for what runs left, if the first of them opened with such a state and no lower count.
pub fn compact()
    ensures gives { CompactGives }
    ensures next { CompactIsNext }
    ensures read { CompactReads }
    ensures found { CompactIsFoundAgain }
    ensures opens { CompactMayOpen }
    ensures opening { OpeningsHoldInRow }
    ensures restored { RestoredHoldInRow }
    ensures runs { RunsHoldInRow }
    ensures agree { AgreeHoldInRow }
    ensures may { RunsMayCompact }
{}
