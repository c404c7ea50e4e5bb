//! Laws of what changed and of who wrote what: each function takes and answers nothing, and its clauses are the law.
ghost use Rattle.change_marks.specs.Laws.{AllSinceTheBeginning, AuthorsTellAll, ChangesByFilter, NothingSinceNow, StretchesAreLongest};

/// The kept and the new runs of a section are its text, and the kept and the gone ones are the text that it had.
pub fn changes_by_filter()
    ensures { ChangesByFilter }
{}

/// Since now nothing changed, and since the beginning each section is new, with all that it has.
pub fn changes_of_all()
    ensures now { NothingSinceNow }
    ensures beginning { AllSinceTheBeginning }
{}

/// The numbers of letters that are reported of a section add up to its text.
pub fn authors_tell_all()
    ensures { AuthorsTellAll }
{}

/// The runs of a list are its elements that have a key, in order, and no run could be longer.
pub fn runs_are_longest()
    ensures { StretchesAreLongest }
{}
