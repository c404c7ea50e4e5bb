//! Theorems on scripts: each line asks for one edit, each script has one outcome, and copies take it in.
ghost use Rattle.edit_script.specs.Laws.{AsksOnce, RunsOnce, ScriptsAreTakenIn};

/// Each line is a note line, or asks for exactly one edit, or is bad.
pub fn lines_ask_once()
    ensures { AsksOnce }
{}

/// From each state each script comes to its end, or to its first faulty line, and to one of these.
pub fn scripts_run_once()
    ensures { RunsOnce }
{}

/// What a script made on a settled replica, taken in by a copy of what that was, comes to what the script came to, and
/// all of it is kept.
pub fn scripts_are_taken_in()
    ensures { ScriptsAreTakenIn }
{}
