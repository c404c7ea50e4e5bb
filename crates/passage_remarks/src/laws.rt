//! Laws of remarks: each function takes and answers nothing, and its clauses are the law.

ghost use Rattle.passage_remarks.specs.Laws.{RemarksAreComments, WithdrawnIsGone};

/// The remarks are the comments of the arranged sections that are not withdrawn, each once, in order.
pub fn remarks_are_comments()
    ensures { RemarksAreComments }
{}

/// A comment that was withdrawn is no remark any more.
pub fn withdrawn_is_gone()
    ensures { WithdrawnIsGone }
{}
