//! Laws of drafts: each function takes and answers nothing, and its clauses are the law.
ghost use Rattle.draft_plan.specs.Laws.{FormOfParts, OthersAreSpared, PartsOfForm};
ghost use Rattle.draft_plan.specs.Passages.{PassagesAreSpans, PassagesStay};
ghost use Rattle.draft_plan.specs.Plain.{ArrangedReads};

/// The form of a draft's parts is the draft, but for its last LF and for empty lines after headings.
pub fn form_of_parts()
    ensures { FormOfParts }
{}

/// A list of parts reads back from its form.
pub fn parts_of_form()
    ensures { PartsOfForm }
{}

/// What is printed of a replica is a draft of the headings and texts that it shows, where no text has a heading.
pub fn arranged_reads()
    ensures { ArrangedReads }
{}

/// What a revision lacks stays, in whatever comes of it and of what others made, unless they delete it themselves.
pub fn others_are_spared()
    ensures { OthersAreSpared }
{}

/// Where the first and the last letter of a passage stand in lines that stay, both stay. All of it stays where both stand in
/// one such line, where the section keeps its text, where no hunk touches the passage, and where it stands in the common
/// front or end of a stretch between lines that stay, as far as whole words allow: so a comment on it still names what it
/// named.
pub fn passages_stay()
    ensures { PassagesStay }
{}

/// The two numbers of a comment on a passage that is shown cut this passage out of what is shown.
pub fn passages_are_spans()
    ensures { PassagesAreSpans }
{}
