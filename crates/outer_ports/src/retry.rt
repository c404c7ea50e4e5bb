//! Calls that a signal interrupts are made again.
ghost use Rattle.std.specs.Prelude.{◌≡◌, length, IsErr, IsTrue};
ghost use Rattle.std.specs.Io.{ReadsAtMost, WritesAtMost};
ghost use Rattle.std.specs.Io.KnownBytes.{ReadConsumes, WriteAppends};

use std::fs::{self, File, Files, Metadata};
use std::io::{self, ErrorKind, Read, Write};
use std::os::unix::fs::FileExt;

/// How often a call is made while signals interrupt it: more often than any signals come.
pub(crate) const MOST_CALLS: u32 = u32::MAX;

/// Reads once, and again as long as a signal interrupts the call.
pub(crate) fn read<S: Read>(stream: &mut S, buf: &mut [u8]) -> io::Result<usize>
    ensures bound { ReadsAtMost result buf.new }
    ensures len { length buf.new ≡ length buf.old }
    ensures bytes { ReadConsumes (S.remaining stream.old) (S.remaining stream.new) result buf.new }
{
    'calls: for _ in 1..MOST_CALLS {
        let given = stream.read(buf);
        if !is_interrupted(&given) {
            return given;
        }
    }
    stream.read(buf)
}

/// Writes once, and again as long as a signal interrupts the call.
pub(crate) fn write<S: Write>(stream: &mut S, piece: &[u8]) -> io::Result<usize>
    ensures bound { WritesAtMost result piece.now }
    ensures bytes { WriteAppends (S.contents stream.old) (S.contents stream.new) result piece.now }
{
    'calls: for _ in 1..MOST_CALLS {
        let given = stream.write(piece);
        if !is_interrupted(&given) {
            return given;
        }
    }
    stream.write(piece)
}

/// Reads once at an offset, and again as long as a signal interrupts the call.
pub(crate) fn read_at<F: FileExt>(file: &F, buf: &mut [u8], at: u64) -> io::Result<usize>
    ensures bound { ReadsAtMost result buf.new }
    ensures len { length buf.new ≡ length buf.old }
{
    'calls: for _ in 1..MOST_CALLS {
        let given = file.read_at(buf, at);
        if !is_interrupted(&given) {
            return given;
        }
    }
    file.read_at(buf, at)
}

/// The metadata of what a path leads to; asked again as long as a signal interrupts the call.
pub(crate) fn metadata<R: Files>(files: &R, path: &str) -> io::Result<Metadata> {
    'calls: for _ in 1..MOST_CALLS {
        let given = fs::metadata(files, path);
        if !is_interrupted(&given) {
            return given;
        }
    }
    fs::metadata(files, path)
}

/// The metadata of an open file; asked again as long as a signal interrupts the call.
pub(crate) fn metadata_of(file: &File) -> io::Result<Metadata> {
    'calls: for _ in 1..MOST_CALLS {
        let given = file.metadata();
        if !is_interrupted(&given) {
            return given;
        }
    }
    file.metadata()
}

fn is_interrupted<T>(given: &io::Result<T>) -> bool
    ensures { IsTrue result → IsErr given.now }
{
    matches!(given, Err(error) if error.kind() == ErrorKind::Interrupted)
}
