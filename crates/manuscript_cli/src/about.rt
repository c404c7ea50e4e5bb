//! The command `about`: what the program is.
ghost use Rattle.manuscript_cli.specs.Alone.{WritesAlone, about_text};
ghost use Rattle.command_kinds.specs.Changes.{change};

use command_kinds::{Status, ended, gone_out};
use fugue_ids::write_pieces;
use outer_ports::Sink;

/// Writes the name and the version of the program, what it was proved with, and its licence.
pub(crate) fn about<O: Sink, N: Sink>(output: &mut O, notes: &mut N) -> Status
    ensures { WritesAlone about_text (change (O.seen output.old) (O.seen output.new))
        (change (N.seen notes.old) (N.seen notes.new)) result }
{
    let written = write_pieces(
        output,
        &[
            b"manuscript 0.7.0, of Petreltombac\n",
            b"proved with rattle-kit-13f\n",
            b"MIT License, in the file LICENSE of the sources and of the release\n",
        ],
    );
    ended(gone_out(written), notes)
}
