//! Finds where the first frame in some bytes ends, or that they are only a prefix of one, or begin none.
ghost use Rattle.op_frame.specs.Firsts.{FrontIs};

use crate::due::{Due, Judged};
use crate::judge::{field_size, is_whole, judge};
use crate::run_fields::pass_scalars;
use origin_model::Grammar;

/// What stands at the front of some bytes.
#[derive(Clone, Copy)]
pub(crate) enum Front {
    /// A frame of this length.
    Frame(usize),
    /// The bytes are a proper front of some frame.
    Prefix,
    /// No frame, whatever follows.
    Bad,
}

/// What stands at the front of the bytes. They are judged field by field, but a run's scalars are passed in one loop.
pub(crate) fn front_of(grammar: Grammar, bytes: &[u8]) -> Front
    ensures { FrontIs result grammar bytes.now }
{
    let mut due = Due::Kind(grammar);
    let mut at = 0;
    'fields: loop {
        if is_whole(due) {
            return Front::Frame(at);
        }
        let end = bytes.len().min(at + field_size(due));
        if end == at {
            return Front::Prefix;
        }
        match judge(due, &bytes[at..end]) {
            Judged::Done(next) => {
                let (next, passed) = pass_scalars(next, &bytes[end..]);
                due = next;
                at = end + passed;
            }
            Judged::Front => return Front::Prefix,
            Judged::Bad => return Front::Bad,
        }
    }
}
