//! The standard streams that are closed.

use std::fs::{File, OpenFile, OpenOptions};
use std::io;
use std::os::fd::AsFd;

/// What the system answers for a number that nothing is open at.
const NOT_OPEN: i32 = 9;

/// What holds the number of each standard stream that is closed, so that a file or a socket that is opened while it
/// stands gets another number, and no standard stream reads or writes it.
///
/// It can't be read in the place of the input, nor written in the place of an output: an input that is closed is none
/// that has ended.
#[derive(Drop)]
pub(crate) struct Held {
    pub(crate) input: Option<File>,
    pub(crate) output: Option<File>,
    pub(crate) errors: Option<File>,
}

/// Holds them. It fails where a number is to be held and nothing is there for it.
pub(crate) fn hold_closed(rt: &HostRuntime) -> io::Result<Held> {
    // What is opened gets the least number that is free: that of the first stream that is closed.
    Ok(Held {
        input: hold(rt, &rt.stdin(), OpenOptions::new().write(true))?,
        output: hold(rt, &rt.stdout(), OpenOptions::new().read(true))?,
        errors: hold(rt, &rt.stderr(), OpenOptions::new().read(true))?,
    })
}

/// Opens the root folder, which is neither read nor written, or else the device that keeps nothing.
fn hold<S: AsFd>(rt: &HostRuntime, stream: &S, device: &OpenOptions) -> io::Result<Option<File>> {
    if is_open(stream) {
        return Ok(None);
    }
    OpenOptions::new()
        .read(true)
        .open(rt, "/")
        .or_else(|_| device.open(rt, "/dev/null"))
        .map(Some)
}

fn is_open<S: AsFd>(stream: &S) -> bool {
    match stream.as_fd().try_clone_to_owned() {
        Ok(_) => true,
        Err(error) => error.raw_os_error() != Some(NOT_OPEN),
    }
}
