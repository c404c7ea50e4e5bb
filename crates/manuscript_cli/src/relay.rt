//! The command `relay`: listens on a port, serves some sessions, and reports the length of the log.
ghost use Rattle.std.specs.Prelude.{◌≡◌, ◌≤◌, length};
ghost use Rattle.fugue_ids.specs.Outs.{WritesBytes};
ghost use Rattle.origin_model.specs.relay.Relay.{new_relay};
ghost use Rattle.command_kinds.specs.Printing.{NoteMeets, NotesBlameless};
ghost use Rattle.manuscript_cli.specs.Relay.{NeverBlamed, OpeningMeets, Relays, RiseOutside, ServingMeets};
ghost use Rattle.manuscript_cli.specs.Relay.{log_line, ready_line};
ghost use Rattle.command_kinds.specs.Changes.{CountsNoFault, change, notes_room};
ghost use Rattle.command_kinds.specs.declared.status.Status.TheVariants.{Done};
ghost use Rattle.relay_core.specs.declared.relay.TheConstants.{MOST_LOGGED as most_logged};

use command_kinds::{Refusal, Status, noted, tell};
use fugue_ids::{Failed, Out, write_pieces, write_whole};
use itoa::Buffer;
use outer_ports::{Dock, Sink};
use relay_core::{MOST_LOGGED, Relay};
use relay_sync::serve;
use std::alloc::Global;
use std::hash::BuildHasher;

/// Listens on the port, says so, and serves until so many sessions are closed or gone.
pub(crate) fn relay<O: Sink, N: Sink, D: Dock, B: BuildHasher + Drop>(
    alloc: Global,
    port: u16,
    sessions: u32,
    output: &mut O,
    notes: &mut N,
    dock: &mut D,
    hasher: B,
) -> Status
    ensures { Relays port sessions (change (O.seen output.old) (O.seen output.new))
        (change (N.seen notes.old) (N.seen notes.new)) (change (D.seen dock.old) (D.seen dock.new)) result }
{
    match served(alloc, port, sessions, output, dock, hasher) {
        Ok(logged) => note(logged, notes),
        Err(why) => tell(notes, why),
    }
}

/// Listens and serves by a relay that is new. Returns how many frames its log has then.
fn served<O: Sink, D: Dock, B: BuildHasher + Drop>(
    alloc: Global,
    port: u16,
    sessions: u32,
    output: &mut O,
    dock: &mut D,
    hasher: B,
) -> Result<u32, Refusal>
    ensures meets { ServingMeets port sessions (change (O.seen output.old) (O.seen output.new))
        (change (D.seen dock.old) (D.seen dock.new)) result }
    ensures counts_no_fault { CountsNoFault (length ready_line) (O.seen output.old) (O.seen output.new) }
    ensures dock { NeverBlamed sessions (change (O.seen output.old) (O.seen output.new))
        (change (D.seen dock.old) (D.seen dock.new)) result }
    ensures reported { RiseOutside (change (O.seen output.old) (O.seen output.new))
        (change (D.seen dock.old) (D.seen dock.new)) result }
{
    let mut relay = Relay::new(alloc, hasher, MOST_LOGGED);
    let logged = serve_by(alloc, port, sessions, output, dock, &mut relay);
    drop(relay);
    logged
}

/// Listens and serves by this relay, to which nothing happened yet.
fn serve_by<O: Sink, D: Dock, B: BuildHasher + Drop>(
    alloc: Global,
    port: u16,
    sessions: u32,
    output: &mut O,
    dock: &mut D,
    relay: &mut Relay<B>,
) -> Result<u32, Refusal>
    requires { relay.old ≡ new_relay most_logged }
    ensures reported { RiseOutside (change (O.seen output.old) (O.seen output.new))
        (change (D.seen dock.old) (D.seen dock.new)) result }
    ensures dock { NeverBlamed sessions (change (O.seen output.old) (O.seen output.new))
        (change (D.seen dock.old) (D.seen dock.new)) result }
    ensures counts_no_fault { CountsNoFault (length ready_line) (O.seen output.old) (O.seen output.new) }
    ensures meets { ServingMeets port sessions (change (O.seen output.old) (O.seen output.new))
        (change (D.seen dock.old) (D.seen dock.new)) result }
{
    open(port, output, dock)?;
    match serve(alloc, relay, dock, sessions, u64::MAX) {
        Ok(()) => Ok(relay.log_len()),
        Err(fault) => Err(Refusal::from(fault)),
    }
}

/// Listens on the port, and says so.
fn open<O: Sink, D: Dock>(port: u16, output: &mut O, dock: &mut D) -> Result<(), Refusal>
    ensures meets { OpeningMeets port (change (O.seen output.old) (O.seen output.new))
        (change (D.seen dock.old) (D.seen dock.new)) result }
    ensures counts_no_fault { CountsNoFault (length ready_line) (O.seen output.old) (O.seen output.new) }
    ensures reported { RiseOutside (change (O.seen output.old) (O.seen output.new))
        (change (D.seen dock.old) (D.seen dock.new)) result }
{
    let Ok(()) = dock.listen(port) else {
        return Err(Refusal::Outside);
    };
    match write_whole(output, b"ready\n") {
        Ok(()) => Ok(()),
        Err(_) => Err(Refusal::Outside),
    }
}

/// Writes how many frames the log has to the notes.
fn note<N: Sink>(logged: u32, notes: &mut N) -> Status
    ensures meets { NoteMeets (log_line logged) Done (N.seen notes.old) (N.seen notes.new) result }
    ensures counts_no_fault { CountsNoFault notes_room (N.seen notes.old) (N.seen notes.new) }
    ensures blameless { NotesBlameless (change (N.seen notes.old) (N.seen notes.new)) result }
{
    let written = write_logged(notes, logged);
    noted(written, Status::Done, notes)
}

fn write_logged<N: Out>(notes: &mut N, logged: u32) -> Result<(), Failed>
    ensures text { WritesBytes (N.seen notes.old) (N.seen notes.new) result (log_line logged) }
    ensures short { length (log_line logged) ≤ notes_room }
{
    let mut number = Buffer::new();
    write_pieces(notes, &[b"log ", number.format(logged).as_bytes(), b"\n"])
}
