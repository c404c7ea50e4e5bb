//! The parts of a line, as text.
ghost use Rattle.std.specs.Prelude.{◌≡◌, ◌++◌, codes, decimal, flat_map, OnOk};
ghost use Rattle.batch_moments.specs.Lines.{with_commas, part_text};

use fugue_ids::NoMemory;
use itoa::Buffer;

/// How many operations of a kind there are.
#[derive(Clone, Copy, Debug, PartialEq, Eq)]
pub enum Part {
    /// Texts that the replica of this number made.
    Texts(u32, usize),
    Deletes(usize),
    Sections(usize),
    Notes(usize),
}

/// Appends the decimal digits.
pub(crate) fn put_number(text: &mut Vec<u8>, number: usize) -> Result<(), NoMemory>
    ensures { OnOk result (text.new.items ≡ text.old.items ++ decimal number) }
{
    let mut buffer = Buffer::new();
    text.extend_from_slice(buffer.format(number).as_bytes())?;
    Ok(())
}

/// Appends a part.
fn put_part(text: &mut Vec<u8>, part: Part) -> Result<(), NoMemory>
    ensures { OnOk result (text.new.items ≡ text.old.items ++ part_text part) }
{
    match part {
        Part::Texts(replica, count) => {
            put_number(text, replica as usize)?;
            text.extend_from_slice(b" +")?;
            put_number(text, count)
        }
        Part::Deletes(count) => {
            text.extend_from_slice(b"-")?;
            put_number(text, count)
        }
        Part::Sections(count) => {
            put_number(text, count)?;
            text.extend_from_slice(b" sections")?;
            Ok(())
        }
        Part::Notes(count) => {
            put_number(text, count)?;
            text.extend_from_slice(b" notes")?;
            Ok(())
        }
    }
}

/// Appends a part that stands after another one.
fn put_next(text: &mut Vec<u8>, part: Part) -> Result<(), NoMemory>
    ensures { OnOk result (text.new.items ≡ text.old.items ++ codes ", " ++ part_text part) }
{
    text.extend_from_slice(b", ")?;
    put_part(text, part)
}

/// Appends the parts, with a comma between each two.
pub(crate) fn put_parts(text: &mut Vec<u8>, parts: &[Part]) -> Result<(), NoMemory>
    ensures { OnOk result (text.new.items ≡ text.old.items ++ with_commas parts.now) }
{
    let Some((first, rest)) = parts.split_first() else {
        return Ok(());
    };
    put_part(text, *first)?;
    'parts: for part in rest {
        put_next(text, *part)?;
    }
    Ok(())
}
