//! Each function takes and answers nothing, and its clauses are the law.

ghost use Rattle.merged_words.specs.Drafts.{DraftsMerge, NoThirdWord, TypedInOneGo};

/// Where two authors change the text of one section without seeing each other's changes, and all operations of both come
/// together, the section reads as the two changes of its text together say.
pub fn drafts_merge()
    ensures { DraftsMerge }
{}

/// If in both drafts whole words go and come, and the three texts end in white space, no word comes of two drafts together
/// that is not one of the old text or of one of the new ones.
pub fn no_third_word()
    ensures { NoThirdWord }
{}

/// What one put of an editor brings is put in one go, as the drafts of the laws above need it of each hunk.
pub fn typed_in_one_go()
    ensures { TypedInOneGo }
{}
