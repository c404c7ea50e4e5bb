//! The log of distinct operations, each as its own frame, and the reply with those from a cursor on.
ghost use Rattle.std.specs.Prelude.{◌≡◌, ◌<◌, ◌^◌, ◌++◌, ◌∷◌, [], drop, flat_map, length, false, IfOk, OnErr, OnOk};
ghost use Rattle.origin_model.specs.relay.Session.{is_logged, reply_from};
ghost use Rattle.relay_core.specs.Logs.{frames_in};

use fugue_ids::{ByteList, NoMemory};
use indexmap::IndexSet;
use op_frame::END;
use std::alloc::Global;
use std::hash::BuildHasher;

/// The distinct operations, each as its own frame, in the order in which they came first.
pub(crate) type Log<B> = IndexSet<Vec<u8>, B>;

pub(crate) fn has_frame<B: BuildHasher>(log: &Log<B>, frame: &[u8]) -> bool
    ensures { result ≡ is_logged (frames_in log.now) frame.now }
{
    log.contains(frame)
}

/// One operation more, at the end. After an allocation failure the log is as before.
pub(crate) fn add<B: BuildHasher>(
    alloc: Global,
    log: &mut Log<B>,
    frame: &[u8],
) -> Result<(), NoMemory>
    requires { is_logged (frames_in log.old) frame.now ≡ false }
    ensures ok { OnOk result (frames_in log.new ≡ frames_in log.old ++ frame.now ∷ []) }
    ensures err { OnErr result (frames_in log.new ≡ frames_in log.old) }
{
    let frame = frame.to_vec(alloc)?;
    let Ok(_) = log.insert(frame) else {
        return Err(NoMemory);
    };
    Ok(())
}

/// The operations from the cursor on.
fn from_cursor<'a, B: BuildHasher>(log: &'a Log<B>, cursor: u32) -> &'a [Vec<u8>]
    ensures { result.now ≡ drop cursor log.now.keys }
{
    let frames = log.as_slice();
    let start = frames.len().min(cursor as usize);
    &frames[start..]
}

/// The reply to a session with this cursor.
pub(crate) fn answer<B: BuildHasher>(
    alloc: Global,
    log: &Log<B>,
    cursor: u32,
) -> Result<ByteList, NoMemory>
    requires { length (frames_in log.now) < 2 ^ 32 }
    ensures { IfOk result (λ bytes. bytes ≡ reply_from (frames_in log.now) cursor) }
{
    let mut bytes = Vec::new(alloc);
    append_all(&mut bytes, from_cursor(log, cursor))?;
    bytes.push(END)?;
    bytes.extend_from_slice(&(log.len() as u32).to_be_bytes())?;
    Ok(ByteList::new(bytes))
}

fn append_all(bytes: &mut Vec<u8>, frames: &[Vec<u8>]) -> Result<(), NoMemory>
    ensures { OnOk result (bytes.new.items ≡ bytes.old.items ++ flat_map (λ f. f.items) frames.now) }
{
    for frame in frames {
        bytes.extend_from_slice(frame.as_slice())?;
    }
    Ok(())
}
