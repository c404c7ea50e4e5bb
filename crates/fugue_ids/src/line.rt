//! Lines of text.
ghost use Rattle.std.specs.Prelude.{◌≡◌, ◌&&◌, length, nat_le, nat_lt};
ghost use Rattle.std.specs.Str.{is_utf8 as is_utf8_in};
ghost use Rattle.fugue_ids.specs.Titles.{has_line_end as has_line_end_in, is_line as is_line_in};

/// Whether an LF or a CR stands in the bytes.
pub fn has_line_end(bytes: &[u8]) -> bool
    ensures { result ≡ has_line_end_in bytes.now }
{
    bytes.iter().any(|byte| *byte == b'\n' || *byte == b'\r')
}

/// Whether the bytes are UTF-8.
pub fn is_utf8(bytes: &[u8]) -> bool
    ensures { result ≡ is_utf8_in bytes.now }
{
    std::str::from_utf8(bytes).is_ok()
}

fn has_length(bytes: &[u8], most: usize) -> bool
    ensures { result ≡ (nat_lt 0 (length bytes.now) && nat_le (length bytes.now) most) }
{
    !bytes.is_empty() && bytes.len() <= most
}

/// Whether the bytes are one line of text: UTF-8 of 1 to so many bytes, without LF and CR.
pub fn is_line(bytes: &[u8], most: usize) -> bool
    ensures { result ≡ is_line_in most bytes.now }
{
    is_utf8(bytes) && has_length(bytes, most) && !has_line_end(bytes)
}
