//! `run`: parses the command line and runs that command on the given streams, disks and connections.
ghost use Rattle.std.specs.Prelude.{◌≡◌, ◌≢◌, ◌↔◌, ℕ, Option, Some, map, string_bytes};
ghost use Rattle.origin_model.specs.order.Printed.{manuscript};
ghost use Rattle.catalogue_notes.specs.Arranged.{arranged_text};
ghost use Rattle.manuscript_cli.specs.Command.{IsCommand, Names};
ghost use Rattle.manuscript_cli.specs.Headline.{Headline, PrintsBySet};
ghost use Rattle.command_kinds.specs.Show.{ShowIsDecided};
ghost use Rattle.manuscript_cli.specs.Run.{IsBlameless, Meets};
ghost use Rattle.command_kinds.specs.Changes.{change};
ghost use Rattle.manuscript_cli.specs.Touched.{all_objects};
ghost use Rattle.manuscript_cli.specs.declared.command.Command.{Command as AnyCommand};
ghost use Rattle.manuscript_cli.specs.declared.command.Command.TheVariants.{Arrange, Print, Show};
ghost use Rattle.command_kinds.specs.declared.status.Status.TheVariants.{Usage};

use crate::about::about;
use crate::arrange::Arrangement;
use crate::bulk::bulk;
use crate::changed::{Authors, Changes};
use crate::check::check_file;
use crate::comments::{Comments, NewComment};
use crate::list::Contents;
use crate::moments::write_moments;
use crate::moving::{Move, Retitle};
use crate::number::index_of;
use crate::past::Past;
use crate::relay::relay;
use crate::remark::Remark;
use crate::remarks::{Remarks, withdraw_remark};
use crate::revise::revise_file;
use crate::revise_since::revise_file_since;
use crate::versions::{NewVersion, Versions, View};
use crate::why::Why;
use crate::words::{last_of, third_of};
use crate::{Command, read_words};
use catalogue_notes::arranged_by_set;
use command_kinds::{
    Frames, Manuscript, OtherFile, Refusal, Reply, Script, Status, Stream, new_file, save_given,
    save_note, show, tell, write_report,
};
use origin_model::order_by_set;
use outer_ports::{Disk, Dock, Sink, Source, Wire};
use std::alloc::Global;
use std::hash::BuildHasher;

/// Does what the words ask for: the program's one call.
///
/// Results go to `output`; what was done and why something was refused goes to `notes`, one line for each. The file
/// that a command is about is `home`, and the other one that it reads is `guest`. A relay is asked over `wire`, and
/// serves at `dock`, where `hasher` is for its log.
pub fn run<S: Source, O: Sink, N: Sink, H: Disk, G: Disk, W: Wire, D: Dock, B: BuildHasher + Drop>(
    alloc: Global,
    words: &[String],
    input: &mut S,
    output: &mut O,
    notes: &mut N,
    home: &mut H,
    guest: &mut G,
    wire: &mut W,
    dock: &mut D,
    hasher: B,
) -> Status
    // The words decide whether anything is done.
    ensures usage { (result ≡ Usage) ↔ ((command : AnyCommand) → Names (map string_bytes words.now) command → ⊥) }
    ensures untouched { result ≡ Usage
        → (input.new ≡ input.old) × (output.new ≡ output.old) × (home.new ≡ home.old) × (guest.new ≡ guest.old)
        × (wire.new ≡ wire.old) × (dock.new ≡ dock.old) }

    // There is a command that the words ask for, or none, and this is what it did.
    ensures meets { (command : Option AnyCommand) × IsCommand (map string_bytes words.now) command
        × Meets (map string_bytes words.now) command
        (all_objects (S.seen input.old) (O.seen output.old) (N.seen notes.old) (H.seen home.old) (G.seen guest.old)
        (W.seen wire.old) (D.seen dock.old))
        (all_objects (S.seen input.new) (O.seen output.new) (N.seen notes.new) (H.seen home.new) (G.seen guest.new)
        (W.seen wire.new) (D.seen dock.new)) result }

    // Where an object is specified, a count of faults that rises is reported as an outside fault.
    ensures blameless { IsBlameless
        (all_objects (S.seen input.old) (O.seen output.old) (N.seen notes.old) (H.seen home.old) (G.seen guest.old)
        (W.seen wire.old) (D.seen dock.old))
        (all_objects (S.seen input.new) (O.seen output.new) (N.seen notes.new) (H.seen home.new) (G.seen guest.new)
        (W.seen wire.new) (D.seen dock.new)) result }

    // The stream decides the status of `show`, and a whole stream is shown.
    ensures decided { (hold : ℕ) → Names (map string_bytes words.now) (Show hold) → ShowIsDecided hold
        (record { input = S.seen input.old; output = O.seen output.old; notes = N.seen notes.old })
        (record { input = S.seen input.new; output = O.seen output.new; notes = N.seen notes.new }) result }
    ensures headline { (hold : ℕ) → Names (map string_bytes words.now) (Show hold) → Headline hold
        (record { input = S.seen input.old; output = O.seen output.old; notes = N.seen notes.old })
        (record { input = S.seen input.new; output = O.seen output.new; notes = N.seen notes.new }) result }

    // The set of what a file's replica accepted decides what `print` and `arrange` write.
    ensures by_set { Names (map string_bytes words.now) Print
        → PrintsBySet manuscript (H.seen home.old) (change (O.seen output.old) (O.seen output.new)) result }
    ensures arranged_by_set { Names (map string_bytes words.now) Arrange
        → PrintsBySet arranged_text (H.seen home.old) (change (O.seen output.old) (O.seen output.new)) result }
{
    // Replicas that accepted the same operations print the same by these laws.
    order_by_set();
    arranged_by_set();
    match read_words(words) {
        None => tell(notes, Refusal::Words),
        Some(command) => obey(
            alloc, command, words, input, output, notes, home, guest, wire, dock, hasher,
        ),
    }
}

/// Does the command.
fn obey<S: Source, O: Sink, N: Sink, H: Disk, G: Disk, W: Wire, D: Dock, B: BuildHasher + Drop>(
    alloc: Global,
    command: Command,
    words: &[String],
    input: &mut S,
    output: &mut O,
    notes: &mut N,
    home: &mut H,
    guest: &mut G,
    wire: &mut W,
    dock: &mut D,
    hasher: B,
) -> Status
    requires { Names (map string_bytes words.now) command }
    ensures meets { Meets (map string_bytes words.now) (Some command)
        (all_objects (S.seen input.old) (O.seen output.old) (N.seen notes.old) (H.seen home.old) (G.seen guest.old)
        (W.seen wire.old) (D.seen dock.old))
        (all_objects (S.seen input.new) (O.seen output.new) (N.seen notes.new) (H.seen home.new) (G.seen guest.new)
        (W.seen wire.new) (D.seen dock.new)) result }
    ensures used { result ≢ Usage }
{
    match command {
        Command::Show(hold) => show(alloc, hold, input, output, notes),
        Command::New(replica, hold) => new_file(replica, hold, home, notes),
        Command::Edit => save_given(alloc, &Script, input, home, notes),
        Command::Print => write_report(alloc, &Manuscript, home, output, notes),
        Command::Take => save_given(alloc, &Stream, input, home, notes),
        Command::Send => write_report(alloc, &Frames, home, output, notes),
        Command::Merge => save_given(alloc, &OtherFile, guest, home, notes),
        Command::Relay(port, sessions) => relay(alloc, port, sessions, output, notes, dock, hasher),
        Command::Sync(port, cursor) => {
            save_given(alloc, &Reply { port, cursor }, wire, home, notes)
        }
        Command::Bulk(seed, count) => bulk(alloc, seed, count, output, notes),
        Command::Why(section, first, second) => {
            let section = index_of(section);
            let why = Why {
                section,
                first,
                second,
            };
            write_report(alloc, &why, home, output, notes)
        }
        Command::Check => check_file(alloc, input, home, output, notes),
        Command::Move(section, place) => save_note(alloc, &Move { section, place }, home, notes),
        Command::Retitle(section) => {
            let title = last_of(words);
            save_note(alloc, &Retitle { section, title }, home, notes)
        }
        Command::Arrange => write_report(alloc, &Arrangement, home, output, notes),
        Command::Authors => write_report(alloc, &Authors, home, output, notes),
        Command::Changes(count) => write_report(alloc, &Changes { count }, home, output, notes),
        Command::Past(count) => write_report(alloc, &Past { count }, home, output, notes),
        Command::Moments => write_moments(alloc, home, output, notes),
        Command::Revise => revise_file(alloc, input, home, guest, notes),
        Command::ReviseSince(count) => {
            revise_file_since(alloc, count, input, home, guest, notes)
        }
        Command::List => write_report(alloc, &Contents, home, output, notes),
        Command::Comment(section, first, count) => {
            let comment = NewComment {
                section,
                first,
                count,
                text: last_of(words),
            };
            save_note(alloc, &comment, home, notes)
        }
        Command::Comments => write_report(alloc, &Comments, home, output, notes),
        Command::Remarks => write_report(alloc, &Remarks, home, output, notes),
        Command::Withdraw(number) => withdraw_remark(alloc, number, home, notes),
        Command::Remark => {
            let remark = Remark {
                passage: third_of(words),
                text: last_of(words),
            };
            save_note(alloc, &remark, home, notes)
        }
        Command::Version => {
            let name = last_of(words);
            save_note(alloc, &NewVersion { name }, home, notes)
        }
        Command::Versions => write_report(alloc, &Versions, home, output, notes),
        Command::View => {
            let name = last_of(words);
            write_report(alloc, &View { name }, home, output, notes)
        }
        Command::About => about(output, notes),
    }
}
