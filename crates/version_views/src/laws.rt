//! Laws of versions and views: each function takes and answers nothing, and its clauses are the law.

ghost use Rattle.version_views.specs.Fronts.{EditsGrow, FilesGrow, FirstStay, IntakesGrow, NotesGrow, PartsGrow};
ghost use Rattle.version_views.specs.Laws.{OrderByFilter, ShownByFilter, FirstByFilter};
ghost use Rattle.version_views.specs.Laws.{LaterOpsLeaveVersion, LaterOpsLeaveView, LaterOpsLeaveWritten};
ghost use Rattle.version_views.specs.Laws.{VersionIsWithin, VersionsAreGiven};

/// The order of the operations that were accepted first is the order of all, without the elements that they lack; what
/// they show is found there too.
pub fn view_by_filter()
    ensures order { OrderByFilter }
    ensures shown { ShownByFilter }
    ensures first { FirstByFilter }
{}

/// Later operations leave what is written of a version, unless they withdraw it or bring another one with its name.
pub fn later_ops_leave_versions()
    ensures version { LaterOpsLeaveVersion }
    ensures view { LaterOpsLeaveView }
    ensures written { LaterOpsLeaveWritten }
    ensures within { VersionIsWithin }
{}

/// Which versions a file has: those of the operations that give a name and are not withdrawn.
pub fn versions_are_given()
    ensures { VersionsAreGiven }
{}

/// Operations that are taken in or made stand after those that a replica had accepted, and none of these is taken away:
/// so the first ones are the same for good.
pub fn histories_grow()
    ensures intakes { IntakesGrow }
    ensures files { FilesGrow }
    ensures edits { EditsGrow }
    ensures parts { PartsGrow }
    ensures notes { NotesGrow }
    ensures first { FirstStay }
{}
