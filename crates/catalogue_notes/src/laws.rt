//! Laws of moves and retitles: each function takes and answers nothing, and its clauses are the law.
ghost use Rattle.catalogue_notes.specs.Laws.{ArrangedBySet, EachOnce, LiftIsLawful, LiftedOrderStays, MoveLands};
ghost use Rattle.catalogue_notes.specs.Laws.{RetitleLands, ValidInWhole, Winners};

/// What is lifted of a lawful history is lawful.
pub fn lift_is_lawful()
    ensures { LiftIsLawful }
{}

/// Each shown section stands in the arrangement once, in the order of the positions, which are distinct.
pub fn each_once()
    ensures { EachOnce }
{}

/// A move lands where it was asked.
pub fn move_lands()
    ensures { MoveLands }
{}

/// A retitle gives its section the title.
pub fn retitle_lands()
    ensures { RetitleLands }
{}

/// The arrangement, the headings and the text of both are fixed by the set of the operations.
pub fn arranged_by_set()
    ensures { ArrangedBySet }
{}

/// Which notes are valid, told of the whole history.
pub fn valid_in_whole()
    ensures { ValidInWhole }
{}

/// Which of the claims on a section wins: there is one exactly where a valid one is not withdrawn.
pub fn winners()
    ensures { Winners }
{}

/// Later operations leave the order of what was lifted before, and so do any that a lawful part lacks.
pub fn lifted_order_stays()
    ensures { LiftedOrderStays }
{}
