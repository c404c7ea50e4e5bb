//! Theorems on exchanges: each reply has one outcome, both ends agree, and replicas converge over a relay.
ghost use Rattle.relay_sync.specs.Exchanges.{HearersConverge, HearersHaveTheClosure, LogsAreWhatWasSent};
ghost use Rattle.relay_sync.specs.Outcomes.{RepliesComeOnce};
ghost use Rattle.relay_sync.specs.Serving.{PartsCountAsJoined};
ghost use Rattle.relay_sync.specs.TwoEnds.{RepliesAreRead, RequestsAreAnswered};

use origin_model::{closure_of_set, order_by_set};

/// Each reply comes to exactly one end, from any state and within any limits, and what is heard of it is what it comes
/// to.
pub fn replies_come_once()
    ensures { RepliesComeOnce }
{}

/// A relay comes to the same, and each session is sent the same, in whatever parts a dock gives its steps. A last piece
/// of which a part was given counts as that part.
pub fn parts_count_as_joined()
    ensures { PartsCountAsJoined }
{}

/// The two ends of an exchange fit. Whatever clients send, each reply of a relay reads as the operations of its log from
/// the cursor on, and ends with the log's length. A replica's request is answered so, unless its cursor is beyond the log
/// (code 3) or an operation finds the log full (code 2).
pub fn both_ends_fit()
    ensures replies { RepliesAreRead }
    ensures requests { RequestsAreAnswered }
{}

/// Replicas come together over a relay. They send what they hold, in sessions of which none was refused, interleaved and
/// cut into pieces in any way. The log has all that was sent in whole sessions, and nothing but what the replicas of the
/// sessions held.
/// Let each session that broke off be made good by a whole one. Who then hears the log from its start, without the answer
/// Full, has accepted the closure of the union of what it and all senders kept; so all who kept nothing else accept the
/// same and print the same.
pub fn exchanges_converge()
    ensures log { LogsAreWhatWasSent }
    ensures closure { HearersHaveTheClosure }
    ensures converge { HearersConverge }
{
    closure_of_set();
    order_by_set();
}
