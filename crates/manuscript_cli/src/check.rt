//! The command `check`: whether the text on the input is that of a valid certificate.
ghost use Rattle.std.specs.Prelude.{◌≡◌, ◌↔◌, ◌≤◌, ◌⊎◌, [], ◌∷◌, ◌++◌, true, false, length, codes};
ghost use Rattle.std.specs.Prelude.{IfErr, IfOk, IsErrOf, OnOk};
ghost use Rattle.outer_ports.specs.Sources.{KeepsCount};
ghost use Rattle.order_proof.specs.Readings.{IsValidText};
ghost use Rattle.manuscript_cli.specs.Check.{ChecksHeld, ChecksText, GetsPiece, HasNoInputText, IsTextRead, check_reports};
ghost use Rattle.command_kinds.specs.Changes.{change};
ghost use Rattle.command_kinds.specs.declared.refusal.Refusal.TheVariants.{Outside, NoMemory as NoMemoryFound};

use crate::held::Held;
use command_kinds::{Refusal, Report, ReportResult, Status, gone_out, tell, write_held};
use fugue_ids::{BUFFER, MOST_OPERATIONS, NoMemory, write_whole};
use order_proof::check_text;
use outer_ports::{Disk, Sink, Source};
use replica_core::Replica;
use replica_file::load;
use std::alloc::Global;

/// The most bytes of a text on the input: of a certificate, or of a draft.
pub(crate) const LONGEST_TEXT: usize = 268_435_456;

/// Loads a file, reads the text of a certificate from the input, and writes whether it is valid in what the file's
/// replica holds.
pub(crate) fn check_file<S: Source, O: Sink, N: Sink, H: Disk>(
    alloc: Global,
    input: &mut S,
    home: &mut H,
    output: &mut O,
    notes: &mut N,
) -> Status
    ensures { ChecksText (change (S.seen input.old) (S.seen input.new)) (change (H.seen home.old) (H.seen home.new))
        (change (O.seen output.old) (O.seen output.new)) (change (N.seen notes.old) (N.seen notes.new)) result }
{
    match load(alloc, home, MOST_OPERATIONS) {
        Ok((replica, _)) => {
            let status = check_held(alloc, input, &replica, output, notes);
            replica.discard();
            status
        }
        Err(fault) => tell(notes, Refusal::from(fault)),
    }
}

/// The same after a file that was loaded.
fn check_held<S: Source, O: Sink, N: Sink>(
    alloc: Global,
    input: &mut S,
    replica: &Replica,
    output: &mut O,
    notes: &mut N,
) -> Status
    ensures { ChecksHeld (change (S.seen input.old) (S.seen input.new)) replica.now
        (change (O.seen output.old) (O.seen output.new)) (change (N.seen notes.old) (N.seen notes.new)) result }
{
    match read_text(alloc, input) {
        Ok(text) => {
            let verdict = Verdict { text };
            let status = write_held(alloc, &verdict, replica, output, notes);
            drop(verdict);
            status
        }
        Err(why) => tell(notes, why),
    }
}

/// Whether a text is that of a valid certificate.
#[derive(Drop)]
struct Verdict {
    text: Vec<u8>,
}

impl Report for Verdict {
    ghost Tells = { λ what. check_reports what.text.items };

    fn write<O: Sink>(&self, alloc: Global, replica: &Replica, output: &mut O) -> ReportResult {
        let valid = is_valid(alloc, replica, &self.text)?;
        gone_out(write_whole(output, answer(valid)))
    }

    fn laws(&self) {}
}

fn is_valid(alloc: Global, replica: &Replica, text: &[u8]) -> Result<bool, NoMemory>
    ensures { IfOk result (λ valid. (valid ≡ true) ↔ IsValidText replica.now.held.history text.now) }
{
    check_text(alloc, &Held { replica }, text)
}

fn answer(valid: bool) -> &'static [u8]
    ensures yes { valid ≡ true → result.now ≡ codes "yes" ++ 10 ∷ [] }
    ensures no { valid ≡ false → result.now ≡ codes "no" ++ 10 ∷ [] }
{
    if valid { b"yes\n" } else { b"no\n" }
}

/// Reads all that the source has left. One byte past the limit may be taken to see that the text is longer.
pub(crate) fn read_text<S: Source>(alloc: Global, source: &mut S) -> Result<Vec<u8>, Refusal>
    ensures text { IfOk result (λ text. IsTextRead (change (S.seen source.old) (S.seen source.new)) text.items) }
    ensures none { IfErr result (HasNoInputText (change (S.seen source.old) (S.seen source.new))) }
    ensures count { KeepsCount (S.seen source.old) (S.seen source.new) (IsErrOf result Outside) }
{
    let mut text = Vec::new(alloc);
    'reads: while text.len() <= LONGEST_TEXT {
        let count = read_piece(&mut text, source)?;
        if count == 0 {
            return Ok(text);
        }
    }
    Err(Refusal::TooLong)
}

/// Puts the source's next bytes after a text, one past the limit at most, and returns how many came.
fn read_piece<S: Source>(text: &mut Vec<u8>, source: &mut S) -> Result<usize, Refusal>
    requires { length text.old.items ≤ LONGEST_TEXT }
    ensures bytes { IfOk result
        (GetsPiece text.old.items text.new.items (S.seen source.old) (S.seen source.new)) }
    ensures failed { IfErr result (λ why. (why ≡ Outside) ⊎ (why ≡ NoMemoryFound)) }
    ensures count { KeepsCount (S.seen source.old) (S.seen source.new) (IsErrOf result Outside) }
{
    let mut buffer = [0; BUFFER];
    let most = (LONGEST_TEXT + 1 - text.len()).min(BUFFER);
    match source.read(&mut buffer[..most]) {
        Ok(count) => {
            append(text, &buffer[..count])?;
            Ok(count)
        }
        Err(_) => Err(Refusal::Outside),
    }
}

/// Puts bytes after a text.
fn append(text: &mut Vec<u8>, bytes: &[u8]) -> Result<(), NoMemory>
    ensures { OnOk result (text.new.items ≡ text.old.items ++ bytes.now) }
{
    text.extend_from_slice(bytes)?;
    Ok(())
}
