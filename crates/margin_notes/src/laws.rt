//! Laws of comments: each function takes and answers nothing, and its clauses are the law.

ghost use Rattle.margin_notes.specs.Laws.{CommentsById, CommentsStay, SpanIsPassage, SpanStays};

/// The elements between the anchors of a comment stay the same, whatever comes later: new ones may come among them.
pub fn span_stays()
    ensures elements { SpanStays }
    ensures comments { CommentsStay }
{}

/// The two numbers of a span cut the visible elements between the anchors out of those of the section.
pub fn span_is_passage()
    ensures { SpanIsPassage }
{}

/// The comments of a section are listed by identifier, each once.
pub fn comments_by_id()
    ensures { CommentsById }
{}
