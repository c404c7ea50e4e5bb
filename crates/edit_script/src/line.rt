//! One line of a script: where it ends, how it is read and run, and why it is not.
ghost use Rattle.std.specs.Prelude.{◌≡◌, ◌==◌, IfOk, IfErr, position, ◌++◌, ◌⊎◌, ◌↔◌, ℕ, List, [], IsTrue, OnOk, codes};
ghost use Rattle.std.specs.Option.{option_copied};
ghost use Rattle.origin_model.specs.taking.Taking.{IsSettled};
ghost use Rattle.edit_script.specs.Grammar.{BeginsWith};
ghost use Rattle.edit_script.specs.Lines.{LineFails, WasRun, IsUnreadable, ReadsLine};
ghost use Rattle.edit_script.specs.Sections.{AreShownTexts};

use crate::edit::{Edit, read_edit};
use crate::making::make;
use crate::sections::Sections;
use replica_core::{EditFault, Replica};
use std::alloc::Global;

/// Splits off the first line. Returns None where no LF ends it.
pub(crate) fn split_line(script: &[u8]) -> (&[u8], Option<&[u8]>)
    ensures { BeginsWith script.now result.0.now (option_copied result.1) }
{
    match line_end(script) {
        Some(end) => (&script[..end], Some(&script[end + 1..])),
        None => (script, None),
    }
}

/// Where the first LF stands.
fn line_end(script: &[u8]) -> Option<usize>
    ensures { result ≡ position (λ byte. byte == 10) script.now }
{
    script.iter().position(|byte| *byte == b'\n')
}

/// Why a line was not run.
#[derive(Clone, Copy)]
pub(crate) enum LineFault {
    /// It is no line of a script.
    Bad,
    Edit(EditFault),
}

/// Runs a line.
pub(crate) fn run_line(
    alloc: Global,
    replica: &mut Replica,
    sections: &mut Sections,
    line: &[u8],
) -> Result<(), LineFault>
    requires settled { IsSettled replica.old.held }
    requires sections { AreShownTexts sections.old.indices.entries replica.old }
    ensures runs { OnOk result (WasRun replica.old replica.new line.now) }
    ensures fails { IfErr result (LineFails replica.old replica.new line.now) }
    ensures settled { IsSettled replica.new.held }
    ensures sections { OnOk result (AreShownTexts sections.new.indices.entries replica.new) }
{
    match read_line(alloc, line) {
        Ok(Some(edit)) => match make(replica, sections, edit) {
            Ok(_) => Ok(()),
            Err(fault) => Err(LineFault::Edit(fault)),
        },
        Ok(None) => Ok(()),
        Err(fault) => Err(fault),
    }
}

/// Reads a line. Returns None for a note line.
fn read_line(alloc: Global, line: &[u8]) -> Result<Option<Edit>, LineFault>
    ensures reads { IfOk result (ReadsLine line.now) }
    ensures unreadable { IfErr result (IsUnreadable line.now) }
{
    let Ok(text) = str::from_utf8(line) else {
        return Err(LineFault::Bad);
    };
    if is_note(text.as_bytes()) {
        return Ok(None);
    }
    match read_edit(alloc, text) {
        Ok(Some(edit)) => Ok(Some(edit)),
        Ok(None) => Err(LineFault::Bad),
        Err(_) => Err(LineFault::Edit(EditFault::NoMemory)),
    }
}

fn is_note(line: &[u8]) -> bool
    ensures { IsTrue result ↔ ((line.now ≡ []) ⊎ ((rest : List ℕ) × (line.now ≡ codes "#" ++ rest))) }
{
    match line {
        [] => true,
        [first, ..] => *first == b'#',
    }
}
