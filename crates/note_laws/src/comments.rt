//! Laws of comments: each function takes and answers nothing, and its clauses are the law.

ghost use Rattle.note_laws.specs.CommentLaws.{CommentInPart, CommentsBySet, ListedInPart, ListedOnce, OneSection};
ghost use Rattle.note_laws.specs.CommentLaws.{PassageInPart, SectionLookedUp, ShownInPart};

/// The set of the operations fixes the comments, their spans and what is written of them.
///
/// So two files with the same accepted operations list the same comments and remarks, in whatever order each of them
/// accepted the operations.
pub fn comments_by_set()
    ensures { CommentsBySet }
{}

/// What one author's file says of a comment, every file says that has all of its operations.
///
/// A part is any lawful history whose operations are all in the whole: an older state of a file, or another author's file
/// that was merged.
pub fn comment_in_part()
    ensures passage { PassageInPart }
    ensures shown { ShownInPart }
    ensures section { CommentInPart }
    ensures listed { ListedInPart }
{}

/// A comment stands in one section at most, in which it is listed once.
pub fn comment_in_one_section()
    ensures one { OneSection }
    ensures looked_up { SectionLookedUp }
    ensures listed { ListedOnce }
{}
