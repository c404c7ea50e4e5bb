//! `VersionName`: the name of a version in a fixed-size array, so that a refusal with it can be copied.
ghost use Rattle.std.specs.Prelude.{◌≡◌, ◌↔◌, ◌<◌, ◌≤◌, length, IfSome, IsNone};
ghost use Rattle.command_kinds.specs.Refusal.{kept_name, name_bytes};

use version_views::LONGEST_NAME;

/// The name of a version as a refusal keeps it, so that it is copied: at most 120 bytes, and zeros after them.
#[derive(Clone, Copy)]
pub struct VersionName {
    bytes: [u8; LONGEST_NAME],
    length: usize,
}

impl VersionName {
    /// Returns None for more than 120 bytes.
    pub fn read(name: &str) -> Option<VersionName>
        ensures none { IsNone result ↔ (LONGEST_NAME < length name.now) }
        ensures some { IfSome result (λ kept. kept ≡ kept_name name.now) }
    {
        let name = name.as_bytes();
        if name.len() > LONGEST_NAME {
            return None;
        }
        let mut bytes = [0; LONGEST_NAME];
        bytes[..name.len()].copy_from_slice(name);
        Some(VersionName {
            bytes,
            length: name.len(),
        })
    }

    /// The bytes of the name.
    pub fn as_bytes(&self) -> &[u8]
        ensures bytes { result.now ≡ name_bytes self.now }
        ensures few { length result.now ≤ LONGEST_NAME }
    {
        &self.bytes[..self.length.min(LONGEST_NAME)]
    }
}
