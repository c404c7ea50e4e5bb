//! Which notes of a replica are named versions, and the last version with a given name.
ghost use Rattle.std.specs.Prelude.{◌≡◌, option_map};
ghost use Rattle.origin_model.specs.edits.State.{IsSound};
ghost use Rattle.version_views.specs.Versions.{is_name as is_name_of, is_withdrawn_version as withdrawn_in};
ghost use Rattle.version_views.specs.Versions.{is_version_at, name_given, name_in, name_in_at, version_with};

use crate::{LONGEST_NAME, VERSION_CODE};
use fugue_ids::{Op, is_line};
use replica_core::Replica;

/// Whether the bytes name a version: UTF-8 of 1 to 120 bytes without LF and CR.
pub fn is_name(bytes: &[u8]) -> bool
    ensures { result ≡ is_name_of bytes.now }
{
    is_line(bytes, LONGEST_NAME)
}

/// The name that an operation gives in a file of that number, withdrawn or not.
fn given_name(number: u32, op: &Op) -> Option<&[u8]>
    ensures { option_map (λ name. name.now) result ≡ name_given number op.now }
{
    let Op::Note {
        id,
        names,
        code,
        body,
    } = op
    else {
        return None;
    };
    let name = body.as_slice();
    if names.as_slice().is_empty()
        && *code == VERSION_CODE
        && id.replica == number
        && is_name(name)
    {
        Some(name)
    } else {
        None
    }
}

/// Whether a Delete withdraws the note.
fn is_withdrawn(replica: &Replica, op: &Op) -> bool
    ensures { result ≡ withdrawn_in replica.now.held.history op.now }
{
    match op.id() {
        Some(id) => replica.is_withdrawn(id),
        None => false,
    }
}

/// The name of the version that an operation is.
fn name_of<'a>(replica: &Replica, op: &'a Op) -> Option<&'a [u8]>
    ensures { option_map (λ name. name.now) result ≡ name_in replica.now.number replica.now.held.history op.now }
{
    match given_name(replica.number(), op) {
        Some(name) if !is_withdrawn(replica, op) => Some(name),
        _ => None,
    }
}

/// The name of the version that the operation with so many before it is.
pub(crate) fn name_at(replica: &Replica, count: usize) -> Option<&[u8]>
    ensures { option_map (λ name. name.now) result
        ≡ name_in_at replica.now.number replica.now.held.history count }
{
    match replica.section_or_note(count) {
        Some(op) => name_of(replica, op),
        None => None,
    }
}

/// Whether the operation with so many before it is a version with the name.
fn is_named(replica: &Replica, count: usize, name: &str) -> bool
    ensures { result ≡ is_version_at replica.now.number replica.now.held.history name.now count }
{
    match name_at(replica, count) {
        Some(given) => given == name.as_bytes(),
        None => false,
    }
}

/// How many operations the version with the name has: the last one of that name.
pub fn find_version(replica: &Replica, name: &str) -> Option<usize>
    ensures version { result ≡ version_with replica.now.held.history replica.now.number name.now }
    ensures sound { IsSound replica.now }
{
    let mut found = None;
    'walk: for count in replica.sections_and_notes() {
        if is_named(replica, *count, name) {
            found = Some(*count);
        }
    }
    found
}
