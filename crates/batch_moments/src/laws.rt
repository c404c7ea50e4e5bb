//! Laws of what came when: each function takes and answers nothing, and its clauses are the law.
ghost use Rattle.batch_moments.specs.Laws.{MomentsTellAll};

/// What the lines tell, added up, is what all operations are: as many Texts of each replica, Deletes, Sections and notes.
pub fn moments_tell_all()
    ensures { MomentsTellAll }
{}
