//! Laws of the commands.

ghost use Rattle.std.specs.Prelude.{◌≡◌};
ghost use Rattle.fugue_ids.specs.declared.limits.TheConstants.{GREATEST_HOLD, LONGEST_BODY, LONGEST_TITLE, MOST_NAMES};
ghost use Rattle.fugue_ids.specs.declared.limits.TheConstants.{MOST_OPERATIONS, STREAM_LIMIT};
ghost use Rattle.origin_model.specs.declared.files.TheConstants.{LONGEST_BATCH};
ghost use Rattle.edit_script.specs.declared.script.TheConstants.{LONGEST_SCRIPT};
ghost use Rattle.relay_core.specs.declared.relay.TheConstants.{MOST_LOGGED};
ghost use Rattle.bulk_world.specs.declared.making.TheConstants.{MOST_TURNS};
ghost use Rattle.catalogue_notes.specs.declared.limits.TheConstants.{MOVE_CODE, RETITLE_CODE};
ghost use Rattle.margin_notes.specs.declared.limits.TheConstants.{COMMENT_CODE};
ghost use Rattle.op_frame.specs.declared.encoding.TheConstants.{LONGEST_RUN};
ghost use Rattle.version_views.specs.declared.limits.TheConstants.{LONGEST_NAME, VERSION_CODE};
ghost use Rattle.manuscript_cli.specs.Moments.{MomentsTellFile};
ghost use Rattle.manuscript_cli.specs.Past.{PastIsArranged, PastStays};
ghost use Rattle.manuscript_cli.specs.Revising.{ShowsNoMore};
ghost use Rattle.manuscript_cli.specs.Runs.{EachFinishedIsIn};
ghost use Rattle.manuscript_cli.specs.declared.check.TheConstants.{LONGEST_TEXT};
ghost use Rattle.manuscript_cli.specs.declared.words.TheConstants.{GREATEST_CURSOR, GREATEST_MOMENT, GREATEST_PLACE};
ghost use Rattle.manuscript_cli.specs.declared.words.TheConstants.{GREATEST_PORT, GREATEST_REMARK, GREATEST_REPLICA};
ghost use Rattle.manuscript_cli.specs.declared.words.TheConstants.{GREATEST_SEED};
ghost use Rattle.manuscript_cli.specs.declared.words.TheConstants.{MOST_SESSIONS, USUAL_HOLD};

/// Each limit, and the code of each kind of note, in numbers. The contracts name them, so that each stands once.
pub fn limits_in_numbers()
    ensures operations { MOST_OPERATIONS ≡ 4194304 }
    ensures greatest_hold { GREATEST_HOLD ≡ 1048576 }
    ensures usual_hold { USUAL_HOLD ≡ 65536 }
    ensures title { LONGEST_TITLE ≡ 480 }
    ensures names { MOST_NAMES ≡ 3 }
    ensures body { LONGEST_BODY ≡ 1024 }
    ensures run { LONGEST_RUN ≡ 1024 }
    ensures name { LONGEST_NAME ≡ 120 }
    ensures move_code { MOVE_CODE ≡ 1 }
    ensures retitle_code { RETITLE_CODE ≡ 2 }
    ensures comment_code { COMMENT_CODE ≡ 3 }
    ensures version_code { VERSION_CODE ≡ 4 }
    ensures stream { STREAM_LIMIT ≡ 2147483648 }
    ensures script { LONGEST_SCRIPT ≡ 1048576 }
    ensures text { LONGEST_TEXT ≡ 268435456 }
    ensures place { GREATEST_PLACE ≡ 4294967295 }
    ensures moment { GREATEST_MOMENT ≡ 4294967295 }
    ensures batch { LONGEST_BATCH ≡ 268435456 }
    ensures log { MOST_LOGGED ≡ 1048576 }
    ensures sessions { MOST_SESSIONS ≡ 65535 }
    ensures port { GREATEST_PORT ≡ 65535 }
    ensures replica { GREATEST_REPLICA ≡ 4294967295 }
    ensures remark { GREATEST_REMARK ≡ 4294967295 }
    ensures cursor { GREATEST_CURSOR ≡ 4294967295 }
    ensures seed { GREATEST_SEED ≡ 4294967295 }
    ensures turns { MOST_TURNS ≡ 1000000 }
{}

/// Whatever a crash leaves of a file, each command that ended with Done or Partial since it was made is in it, in
/// order.
///
/// The law speaks of runs on one home file from a `new` that did all on, each as `run` promises it; a crash may come
/// inside of each of them and between two.
pub fn every_finished_command_is_in_the_file()
    ensures { EachFinishedIsIn }
{}

/// What `past` prints for a number of operations is what `arrange` printed when so many were accepted, and it stays that
/// whatever the file gains.
pub fn past_stays()
    ensures arranged { PastIsArranged }
    ensures stays { PastStays }
{}

/// What `moments` prints of a file, added up, is what the file has: the last moment is the number of operations that are
/// accepted, and each of these is reported once.
pub fn moments_tell_file()
    ensures { MomentsTellFile }
{}

/// No replica shows a draft with more sections and letters than a replica may hold operations.
pub fn replicas_show_no_more()
    ensures { ShowsNoMore }
{}
