//! A whole script read from a source into one buffer, up to the size limit.
ghost use Rattle.std.specs.Prelude.{◌≡◌, ◌≤◌, length, IfOk, IfErr, IsErrOf};
ghost use Rattle.outer_ports.specs.Sources.{KeepsCount};
ghost use Rattle.edit_script.specs.Sources.{FilledFromSource, IsScript, LacksScript, Placed};

use crate::ScriptFault;
use fugue_ids::Failed;
use outer_ports::Source;
use std::alloc::Global;

/// The most bytes of a script.
pub const LONGEST_SCRIPT: usize = 1_048_576;

/// Reads all that the source has left, into one buffer that is taken once. One byte past the limit may be taken to see
/// that the script is longer.
pub(crate) fn read_script<S: Source>(alloc: Global, source: &mut S) -> Result<Vec<u8>, ScriptFault>
    ensures script { IfOk result (λ script. IsScript (S.seen source.old) (S.seen source.new) script.items) }
    ensures unread { IfErr result (LacksScript (S.seen source.old) (S.seen source.new)) }
    ensures count { KeepsCount (S.seen source.old) (S.seen source.new) (IsErrOf result ScriptFault.ReadFault) }
{
    let mut script = Vec::new(alloc);
    if script.resize(LONGEST_SCRIPT + 1, 0).is_err() {
        return Err(ScriptFault::NoMemory);
    }
    match fill(&mut script, source) {
        Ok(len) if len > LONGEST_SCRIPT => Err(ScriptFault::TooLong),
        Ok(len) => {
            script.truncate(len);
            Ok(script)
        }
        Err(Failed) => Err(ScriptFault::ReadFault),
    }
}

/// Fills the buffer, or as much of it as the source has bytes for, and returns how many came.
fn fill<S: Source>(buffer: &mut [u8], source: &mut S) -> Result<usize, Failed>
    ensures { FilledFromSource (length buffer.old) buffer.new (S.seen source.old) (S.seen source.new) result }
{
    let mut len = 0;
    'reads: while len < buffer.len() {
        let count = read_after(buffer, len, source)?;
        if count == 0 {
            break;
        }
        len += count;
    }
    Ok(len)
}

/// Puts the source's next bytes after the first `from` of the buffer.
fn read_after<S: Source>(buffer: &mut [u8], from: usize, source: &mut S) -> Result<usize, Failed>
    requires { from ≤ length buffer.old }
    ensures { Placed buffer.old buffer.new from (S.seen source.old) (S.seen source.new) result }
{
    source.read(&mut buffer[from..])
}
