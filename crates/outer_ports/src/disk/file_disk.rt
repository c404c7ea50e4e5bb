//! A disk over a file of the system: opening, locking, reading, writing and syncing.

ghost use Rattle.std.specs.Prelude.{◌≡◌, ◌≢◌, ◌↔◌, ◌⊎◌, None, IfOk, IsErr, IsFalse, IsOk, IsSome, IsTrue};
ghost use Rattle.outer_ports.specs.Counts.{CountsFaults};
ghost use Rattle.outer_ports.specs.disk.Disks.{Sizes, ReadsAt, WritesAt, Syncs};
ghost use Rattle.outer_ports.specs.declared.disk.file_disk.Opening.TheVariants.{Creating, Reading};

use crate::faults::Faults;
use crate::{Disk, retry};
use fugue_ids::Failed;
use std::fs::{self, File, Files, OpenFile, OpenOptions};
use std::io::{self, ErrorKind};
use std::os::unix::fs::{FileExt, MetadataExt};

/// What a file is opened for. A lock is taken at once or not at all.
#[derive(Clone, Copy, Debug, PartialEq, Eq)]
pub enum Opening {
    /// To read: the file is there. It is not locked, so that others may read it, and one may write it.
    Reading,
    /// To read and to write: the file is there, and nobody else has it.
    Writing,
    /// As for writing, and where no file is there an empty one is made.
    Creating,
}

/// A file of the system. It does not tell what stands there.
#[derive(Drop)]
pub struct FileDisk {
    /// None where there is no file to open.
    file: Option<File>,
    opening: Opening,
    is_made: bool,
    /// Why the write that failed last did.
    failed_write: Option<ErrorKind>,
    has_failed_sync: bool,
    faults: Faults,
}

impl FileDisk {
    /// Opens the file, and locks it where it is opened for more than to read: the path leads to the file that is locked.
    /// Only a regular file is opened: what else stands there, a pipe for one, could keep the call waiting.
    pub fn open<R: Files<File = File>>(
        files: &R,
        path: &str,
        opening: Opening,
    ) -> io::Result<FileDisk>
        ensures seen { IfOk result
            (λ disk. ⟦<FileDisk as Disk>⟧.seen disk ≡ record { past = None; faults = 0; room = None; sizes = None; reach = None }) }
        ensures made { IfOk result (λ disk. IsTrue disk.is_made → opening ≡ Creating) }
        ensures opening { IfOk result (λ disk. disk.opening ≡ opening) }
        ensures written { IfOk result (λ disk. disk.failed_write ≡ None) }
        ensures synced { IfOk result (λ disk. IsFalse disk.has_failed_sync) }
    {
        let (file, is_made) = match opening {
            Opening::Creating => create_file(files, path)?,
            Opening::Reading | Opening::Writing => (open_file(files, path, opening)?, false),
        };
        if opening != Opening::Reading {
            lock_file(files, path, &file)?;
        }
        Ok(FileDisk {
            file: Some(file),
            opening,
            is_made,
            failed_write: None,
            has_failed_sync: false,
            faults: Faults::none(),
        })
    }

    /// A disk of no file, for whoever has none to open: each call on it fails.
    pub fn closed() -> FileDisk
        ensures file { result.file ≡ None }
        ensures seen { ⟦<FileDisk as Disk>⟧.seen result ≡ record { past = None; faults = 0; room = None; sizes = None; reach = None } }
        ensures made { IsFalse result.is_made }
        ensures written { result.failed_write ≡ None }
        ensures synced { IsFalse result.has_failed_sync }
    {
        FileDisk {
            file: None,
            opening: Opening::Reading,
            is_made: false,
            failed_write: None,
            has_failed_sync: false,
            faults: Faults::none(),
        }
    }

    /// Whether there is a file.
    pub fn is_open(&self) -> bool
        ensures { IsTrue result ↔ IsSome self.now.file }
    {
        self.file.is_some()
    }

    /// Whether a sync of the file failed: what is read may then be in memory alone.
    pub fn has_failed_sync(&self) -> bool
        ensures { result ≡ self.now.has_failed_sync }
    {
        self.has_failed_sync
    }

    /// Why the write of the file that failed last did: None where none failed.
    pub fn failed_write(&self) -> Option<ErrorKind>
        ensures { result ≡ self.now.failed_write }
    {
        self.failed_write
    }

    /// Whether the file was not there before it was opened, and a write or a sync of it failed since.
    pub fn is_unfinished(&self) -> bool
        ensures { IsTrue result
            ↔ (IsTrue self.now.is_made × (IsSome self.now.failed_write ⊎ IsTrue self.now.has_failed_sync)) }
    {
        self.is_made && (self.failed_write.is_some() || self.has_failed_sync)
    }

    /// Removes the file that the path leads to, where it is this one and is unfinished. It is locked, so that nobody
    /// else has saved to it.
    pub fn remove_unfinished<R: Files<File = File>>(&self, files: &R, path: &str) {
        if self.is_unfinished()
            && let Some(file) = &self.file
            && let Ok(true) = leads_to(files, path, file)
        {
            let _ = fs::remove_file(files, path);
        }
    }
}

/// Makes the file, or opens the one that is there. Returns whether it was made.
fn create_file<R: Files<File = File>>(files: &R, path: &str) -> io::Result<(File, bool)> {
    let made = OpenOptions::new()
        .read(true)
        .write(true)
        .create_new(true)
        .open(files, path);
    match made {
        Ok(file) => Ok((file, true)),
        Err(error) if error.kind() == ErrorKind::AlreadyExists => {
            let file = open_file(files, path, Opening::Writing).map_err(not_led)?;
            Ok((file, false))
        }
        Err(error) => Err(error),
    }
}

/// Where a name is taken and no file is found, it is that of a link.
fn not_led(error: io::Error) -> io::Error {
    if error.kind() == ErrorKind::NotFound {
        io::Error::other("a link that leads nowhere")
    } else {
        error
    }
}

/// Locks the file. Where the path leads to another one by now, another program has removed or replaced it meanwhile.
fn lock_file<R: Files<File = File>>(files: &R, path: &str, file: &File) -> io::Result<()> {
    file.try_lock().map_err(io::Error::from)?;
    if leads_to(files, path, file)? {
        Ok(())
    } else {
        Err(io::Error::from(ErrorKind::WouldBlock))
    }
}

/// Whether the path leads to the file.
fn leads_to<R: Files<File = File>>(files: &R, path: &str, file: &File) -> io::Result<bool> {
    let open = retry::metadata_of(file)?;
    match retry::metadata(files, path) {
        Ok(named) => {
            Ok(open.nlink() > 0 && named.dev() == open.dev() && named.ino() == open.ino())
        }
        Err(error) if error.kind() == ErrorKind::NotFound => Ok(false),
        Err(error) => Err(error),
    }
}

/// Opens the regular file that is there.
fn open_file<R: Files<File = File>>(files: &R, path: &str, opening: Opening) -> io::Result<File> {
    let metadata = retry::metadata(files, path)?;
    if metadata.is_dir() {
        return Err(io::Error::from(ErrorKind::IsADirectory));
    }
    if !metadata.is_file() {
        return Err(io::Error::from(ErrorKind::InvalidInput));
    }
    OpenOptions::new()
        .read(true)
        .write(opening != Opening::Reading)
        .open(files, path)
}

impl Disk for FileDisk {
    ghost seen = { λ d. record { past = None; faults = d.faults; room = None; sizes = None; reach = None } };

    fn size(&mut self) -> Result<u64, Failed>
        ensures sizes { Sizes (⟦<FileDisk as Disk>⟧.seen self.old) (⟦<FileDisk as Disk>⟧.seen self.new) result }
        ensures faults { CountsFaults self.old.faults self.new.faults result }
        ensures others { self.new ≡ record self.old { faults = self.new.faults } }
        ensures missing { self.old.file ≡ None → IsErr result }
    {
        self.faults.pass(match &self.file {
            Some(file) => length_of(file),
            None => Err(not_open()),
        })
    }

    fn read_at(&mut self, at: u64, buf: &mut [u8]) -> Result<usize, Failed>
        ensures reads { ReadsAt (⟦<FileDisk as Disk>⟧.seen self.old) (⟦<FileDisk as Disk>⟧.seen self.new)
            result at buf.new }
        ensures faults { CountsFaults self.old.faults self.new.faults result }
        ensures others { self.new
            ≡ record self.old { faults = self.new.faults; has_failed_sync = self.new.has_failed_sync } }
        ensures synced { self.new.has_failed_sync ≢ self.old.has_failed_sync
            → (self.old.opening ≡ Reading) × IsTrue self.new.has_failed_sync × IsErr result }
        ensures missing { self.old.file ≡ None → IsErr result }
    {
        let given = self.faults.pass(match &self.file {
            Some(file) => retry::read_at(file, buf, at),
            None => Err(not_open()),
        })?;
        // Who has no lock may have read what another program has not synced yet.
        if self.opening == Opening::Reading {
            self.sync()?;
        }
        Ok(given)
    }

    fn write_at(&mut self, at: u64, bytes: &[u8]) -> Result<(), Failed>
        ensures writes { WritesAt (⟦<FileDisk as Disk>⟧.seen self.old) (⟦<FileDisk as Disk>⟧.seen self.new)
            result at bytes.now }
        ensures faults { CountsFaults self.old.faults self.new.faults result }
        ensures others { self.new
            ≡ record self.old { faults = self.new.faults; failed_write = self.new.failed_write } }
        ensures written { IsErr result → IsSome self.new.failed_write }
        ensures kept { IsOk result → self.new.failed_write ≡ self.old.failed_write }
        ensures missing { self.old.file ≡ None → IsErr result }
    {
        let given = match &self.file {
            Some(file) => file.write_all_at(bytes, at),
            None => Err(not_open()),
        };
        if let Err(error) = &given {
            self.failed_write = Some(error.kind());
        }
        self.faults.pass(given)
    }

    fn sync(&mut self) -> Result<(), Failed>
        ensures syncs { Syncs (⟦<FileDisk as Disk>⟧.seen self.old) (⟦<FileDisk as Disk>⟧.seen self.new) result }
        ensures faults { CountsFaults self.old.faults self.new.faults result }
        ensures others { self.new
            ≡ record self.old { faults = self.new.faults; has_failed_sync = self.new.has_failed_sync } }
        ensures synced { IsTrue self.new.has_failed_sync ↔ (IsTrue self.old.has_failed_sync ⊎ IsErr result) }
        ensures missing { self.old.file ≡ None → IsErr result }
    {
        let given = self.faults.pass(match &self.file {
            Some(file) => sync_file(file, self.opening),
            None => Err(not_open()),
        });
        self.has_failed_sync |= given.is_err();
        given
    }
}

/// Syncs the file. Where it was opened to read, on a system that cannot sync such a file, nothing was written, and that
/// counts as done.
fn sync_file(file: &File, opening: Opening) -> io::Result<()> {
    match file.sync_all() {
        Err(error) if opening == Opening::Reading && is_unable(error.kind()) => Ok(()),
        synced => synced,
    }
}

/// Whether the system has no sync for what was asked of it.
fn is_unable(kind: ErrorKind) -> bool {
    matches!(
        kind,
        ErrorKind::InvalidInput | ErrorKind::Unsupported | ErrorKind::ReadOnlyFilesystem
    )
}

fn length_of(file: &File) -> io::Result<u64> {
    Ok(retry::metadata_of(file)?.len())
}

/// Why a call on a file that could not be opened fails.
fn not_open() -> io::Error {
    io::Error::from(ErrorKind::NotFound)
}
