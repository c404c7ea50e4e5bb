//! Big-endian numbers of two and four bytes, and scalars of three, read from bytes.
ghost use Rattle.std.specs.Prelude.{◌≡◌, ◌≤◌, ◌<◌, ◌++◌, ◌∷◌, [], length, drop, get_or, SomeIff};
ghost use Rattle.std.specs.Int.{to_be_bytes, w16, w32};
ghost use Rattle.std.specs.Char.{IsScalar};
ghost use Rattle.op_frame.specs.FrameFronts.{scalar_of_bytes};

/// The number in the first four bytes.
pub(crate) fn number(bytes: &[u8]) -> u32
    requires { 4 ≤ length bytes.now }
    ensures { bytes.now ≡ to_be_bytes w32 result ++ drop 4 bytes.now }
{
    match bytes {
        [a, b, c, d, ..] => u32::from_be_bytes([*a, *b, *c, *d]),
        _ => unreachable!(),
    }
}

/// The number in these two bytes.
pub(crate) fn short_number(high: u8, low: u8) -> usize
    ensures bytes { to_be_bytes w16 result ≡ high ∷ low ∷ [] }
    ensures small { result < 65536 }
{
    u16::from_be_bytes([high, low]) as usize
}

/// The scalar that has these three bytes.
pub(crate) fn scalar_of(high: u8, middle: u8, low: u8) -> Option<char>
    ensures { let code = scalar_of_bytes high middle low in SomeIff result (IsScalar code) code }
{
    char::from_u32(u32::from_be_bytes([0, high, middle, low]))
}

/// The byte at this place, 0 after the last.
pub(crate) fn byte_or_0(bytes: &[u8], at: usize) -> u8
    ensures { result ≡ get_or bytes.now at 0 }
{
    if at < bytes.len() { bytes[at] } else { 0 }
}
