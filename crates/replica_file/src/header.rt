//! The header of a file: format version, replica id and pending capacity; encoded, read and checked.
ghost use Rattle.std.specs.Prelude.{◌≡◌, ◌≢◌, ◌⊎◌, ◌↔◌, ◌+◌, ◌<◌, ◌≤◌, false, true, length, IfSome, IsSome, IfOk, OnOk};
ghost use Rattle.fugue_ids.specs.declared.limits.TheConstants.{GREATEST_HOLD};
ghost use Rattle.origin_model.specs.files.Image.{header_of, is_header, new_file as new_file_of, number_at};
ghost use Rattle.replica_file.specs.Looks.{LooksOnly, ReadsNoFurther};
ghost use Rattle.replica_file.specs.Slots.{IsHeader};

use crate::gate::CLOSED;
use crate::reading::read_from;
use crate::stop::Stop;
use fugue_ids::GREATEST_HOLD;
use outer_ports::Disk;

/// How many bytes stand in front of the first slot.
pub(crate) const HEADER: usize = 13;

const MARK: [u8; 4] = *b"FGMX";

/// The version of new files. Those of version 1 are read too.
const VERSION: u8 = 2;

/// What stands in front of the slots.
#[derive(Clone, Copy)]
pub(crate) struct Header {
    pub(crate) replica: u32,
    pub(crate) hold: u32,
}

/// A header, and a closed gate.
pub(crate) fn new_file(replica: u32, hold: u32) -> [u8; 14]
    ensures { result ≡ new_file_of replica hold }
{
    let [r0, r1, r2, r3] = replica.to_be_bytes();
    let [h0, h1, h2, h3] = hold.to_be_bytes();
    [
        b'F', b'G', b'M', b'X', VERSION, r0, r1, r2, r3, h0, h1, h2, h3, CLOSED,
    ]
}

/// The header of a file, which is bad where there is none.
pub(crate) fn read_header<H: Disk>(disk: &mut H) -> Result<Header, Stop>
    ensures specified { IfOk result (λ header. IfSome (H.seen disk.old).past (λ h. IsHeader h.last.seen header)) }
    ensures within { IfOk result (λ header. (0 < header.replica) × (0 < header.hold) × (header.hold ≤ GREATEST_HOLD)) }
    ensures bad { result ≡ Err Stop.Bad → IfSome (H.seen disk.old).past (λ h.
        (length (header_of h.last.seen) < 13) ⊎ (is_header (header_of h.last.seen) ≡ false)) }
    ensures no_memory { result ≢ Err Stop.NoMemory }
    ensures looks { LooksOnly (H.seen disk.old) (H.seen disk.new) (result ≡ Err Stop.Disk) }
    ensures reach { OnOk result (ReadsNoFurther 13 (H.seen disk.old) (H.seen disk.new)) }
{
    let mut bytes = [0; HEADER];
    if read_from(disk, 0, &mut bytes)? < HEADER {
        return Err(Stop::Bad);
    }
    match parse(&bytes) {
        Some(header) => Ok(header),
        None => Err(Stop::Bad),
    }
}

fn parse(bytes: &[u8]) -> Option<Header>
    requires { length bytes.now ≡ 13 }
    ensures some { IsSome result ↔ (is_header bytes.now ≡ true) }
    ensures value { IfSome result
        (λ header. (header.replica ≡ number_at 5 bytes.now) × (header.hold ≡ number_at 9 bytes.now)) }
    ensures within { IfSome result
        (λ header. (0 < header.replica) × (0 < header.hold) × (header.hold ≤ GREATEST_HOLD)) }
{
    let replica = number(bytes, 5);
    let hold = number(bytes, 9);
    if !bytes.starts_with(&MARK) || bytes[4] == 0 || bytes[4] > VERSION {
        return None;
    }
    if replica == 0 || hold == 0 || hold > GREATEST_HOLD {
        return None;
    }
    Some(Header { replica, hold })
}

/// The number in the four bytes from an offset on.
fn number(bytes: &[u8], offset: usize) -> u32
    requires { offset + 4 ≤ length bytes.now }
    ensures { result ≡ number_at offset bytes.now }
{
    let mut number = [0; 4];
    number.copy_from_slice(&bytes[offset..offset + 4]);
    u32::from_be_bytes(number)
}
