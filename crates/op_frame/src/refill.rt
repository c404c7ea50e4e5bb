//! Reads more bytes from the source into the buffer, and fails where the stream exceeds the limit.
ghost use Rattle.std.specs.Prelude.{◌≡◌, ◌<◌, ◌≤◌, length};
ghost use Rattle.op_frame.specs.Refills.{Refills, PastLimit};

use crate::FrameFault;
use crate::unread::Unread;
use fugue_ids::BUFFER;
use outer_ports::Source;

/// Takes more bytes of the source, which has at most `room` of them left before the limit. Returns false at the
/// source's end.
pub(crate) fn refill<S: Source>(
    unread: &mut Unread,
    room: u64,
    source: &mut S,
) -> Result<bool, FrameFault>
    requires { length unread.old.bytes < BUFFER }
    ensures { Refills unread.old.bytes unread.new.bytes (S.seen source.old) (S.seen source.new) room result }
{
    if room == 0 {
        return is_past_limit(source);
    }
    match unread.fill(room.min(BUFFER as u64) as usize, source) {
        Ok(count) => Ok(count > 0),
        Err(_) => Err(FrameFault::ReadFault),
    }
}

/// Fails where the source has one byte more.
fn is_past_limit<S: Source>(source: &mut S) -> Result<bool, FrameFault>
    ensures { PastLimit (S.seen source.old) (S.seen source.new) result }
{
    let mut next = [0; 1];
    match source.read(&mut next) {
        Ok(0) => Ok(false),
        Ok(_) => Err(FrameFault::TooLong),
        Err(_) => Err(FrameFault::ReadFault),
    }
}
