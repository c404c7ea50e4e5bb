//! Scripts run line by line up to the first invalid line, and why one stops.
ghost use Rattle.std.specs.Prelude.{◌≡◌, ◌≤◌, length, IfOk, IfErr, IfSome, IsErrOf};
ghost use Rattle.outer_ports.specs.Sources.{KeepsCount};
ghost use Rattle.origin_model.specs.taking.Taking.{IsSettled};
ghost use Rattle.edit_script.specs.declared.script.TheConstants.{LONGEST_SCRIPT};
ghost use Rattle.edit_script.specs.Answers.{ScriptAnswersBy};
ghost use Rattle.edit_script.specs.Lines.{fault_at};
ghost use Rattle.edit_script.specs.Scripts.{ScriptRuns, RunsWhole, ScriptStops, StopsAtLine};

use crate::line::{LineFault, run_line, split_line};
use crate::script::read_script;
use crate::sections::Sections;
use outer_ports::Source;
use replica_core::{EditFault, Replica};
use std::alloc::Global;
use thiserror::Error;

/// Why a script stopped. The lines before a faulty one stand, each with its number from 1.
#[derive(Clone, Copy, Debug, PartialEq, Eq, Error)]
pub enum ScriptFault {
    /// The line is no line of a script.
    #[error("line {0} is none of a script's")]
    BadLine(u32),
    #[error("line {0} names a section that is not there")]
    NoSection(u32),
    #[error("line {0} names a place that is not there")]
    OutOfRange(u32),
    /// Identifiers are wanting: the greatest counter.
    #[error("no counter is left behind {0}")]
    IdsSpent(u32),
    /// The replica would hold more than it may: the number that it holds.
    #[error("{0} operations are accepted or wait")]
    TooMany(u32),
    #[error("the script was not read")]
    ReadFault,
    /// It has more than 1,048,576 bytes.
    #[error("the script is too long")]
    TooLong,
    #[error("out of memory")]
    NoMemory,
}

/// Runs the script that the source has left, and returns how many operations it made.
pub fn run_script<S: Source>(
    alloc: Global,
    replica: &mut Replica,
    source: &mut S,
) -> Result<u32, ScriptFault>
    requires { IsSettled replica.old.held }
    ensures ok { IfOk result (ScriptRuns replica.old replica.new (S.seen source.old) (S.seen source.new)) }
    ensures err { IfErr result (ScriptStops replica.old replica.new (S.seen source.old) (S.seen source.new)) }
    ensures exactly { IfSome (S.seen source.old).left (ScriptAnswersBy result replica.old) }
    ensures count { KeepsCount (S.seen source.old) (S.seen source.new) (IsErrOf result ScriptFault.ReadFault) }
    ensures settled { IsSettled replica.new.held }
{
    let script = read_script(alloc, source)?;
    run_lines(alloc, replica, script.as_slice())
}

/// Runs the lines of a script, up to the first faulty one.
fn run_lines(alloc: Global, replica: &mut Replica, script: &[u8]) -> Result<u32, ScriptFault>
    requires settled { IsSettled replica.old.held }
    requires short { length script.now ≤ LONGEST_SCRIPT }
    ensures ok { IfOk result (RunsWhole replica.old replica.new script.now) }
    ensures err { IfErr result (StopsAtLine replica.old replica.new script.now) }
    ensures settled { IsSettled replica.new.held }
{
    let before = replica.accepted().len();
    let mut sections = Sections::new(alloc);
    let mut number = 0;
    let mut rest = Some(script);
    'lines: while let Some(bytes) = rest {
        let (line, behind) = split_line(bytes);
        number += 1;
        match run_line(alloc, replica, &mut sections, line) {
            Ok(()) => rest = behind,
            Err(fault) => return Err(at_line(fault, number)),
        }
    }
    Ok((replica.accepted().len() - before) as u32)
}

fn at_line(fault: LineFault, number: u32) -> ScriptFault
    ensures { result ≡ fault_at number fault }
{
    match fault {
        LineFault::Bad => ScriptFault::BadLine(number),
        LineFault::Edit(EditFault::NoSection) => ScriptFault::NoSection(number),
        LineFault::Edit(EditFault::OutOfRange) => ScriptFault::OutOfRange(number),
        LineFault::Edit(EditFault::IdsSpent(greatest)) => ScriptFault::IdsSpent(greatest),
        LineFault::Edit(EditFault::TooMany(held)) => ScriptFault::TooMany(held),
        LineFault::Edit(EditFault::NoMemory) => ScriptFault::NoMemory,
    }
}
