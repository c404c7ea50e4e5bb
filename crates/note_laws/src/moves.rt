//! Laws of moves and retitles: each function takes and answers nothing, and its clauses are the law.

ghost use Rattle.note_laws.specs.MoveLaws.{HeadingStays, LaterOpsLeaveHeading, LaterOpsLeavePosition, MoveInPart};
ghost use Rattle.note_laws.specs.MoveLaws.{MoveMovesOne, PositionStays, PositionStaysExactly, PositionsKeepOrder, RetitleInPart};

/// A move or retitle is valid in a part exactly where it is valid in the whole.
pub fn claim_in_part()
    ensures moves { MoveInPart }
    ensures retitles { RetitleInPart }
{}

/// Who moves one section moves no other, whatever is merged.
///
/// A section stays at its position exactly where no other move wins. Sections that stay at their positions stand in one
/// order.
pub fn move_moves_one()
    ensures position { PositionStays }
    ensures exactly { PositionStaysExactly }
    ensures later { LaterOpsLeavePosition }
    ensures order { PositionsKeepOrder }
    ensures unmoved { MoveMovesOne }
{}

/// A section keeps its heading until another retitle of it comes, or the Delete of the one that wins.
pub fn retitle_titles_one()
    ensures heading { HeadingStays }
    ensures later { LaterOpsLeaveHeading }
{}
