//! Titles, copies and lists of bytes.

use crate::assertions::{equal_at, holds_at};
use crate::ids::id;
use fugue_ids::{ByteList, ElementId, Op, Title, TitleFault, has_line_end};
use std::test::Fail;

/// A text that is repeated so often, and what is wrong with it as a title.
const TITLES: [(&str, usize, Option<TitleFault>); 9] = [
    ("T", 1, None),
    ("Über den Fluß", 1, None),
    ("", 1, Some(TitleFault::Empty)),
    ("a\nb", 1, Some(TitleFault::LineEnd)),
    ("a\r", 1, Some(TitleFault::LineEnd)),
    ("a", 480, None),
    ("ü", 240, None),
    ("a", 481, Some(TitleFault::TooLong)),
    ("\n", 481, Some(TitleFault::TooLong)),
];

#[test]
fn titles_are_lines_and_copies_are_equal(rt: HostRuntime) -> Result<(), Fail> {
    for (letters, count, wanted) in TITLES {
        let text = letters.repeat(rt.alloc(), count)?;
        let (found, fault) = match Title::read(rt.alloc(), text.as_str()) {
            Ok(title) => (title.as_str() == text.as_str(), None),
            Err(fault) => (false, Some(fault)),
        };
        equal_at(&rt, &(letters, count), fault, wanted);
        holds_at(&rt, &(letters, count), found == wanted.is_none());
    }
    let op = Op::Section {
        id: id(9, 0),
        left: None,
        right: ElementId::new(0, 7),
        title: Title::read(rt.alloc(), "T")?,
    };
    let copy = op.clone_in(rt.alloc())?;
    holds_at(
        &rt,
        &"copy",
        copy == op && copy.id() == ElementId::new(9, 0),
    );
    let list = ByteList::new(b"a\n".to_vec(rt.alloc())?);
    let same = ByteList::new(b"a\n".to_vec(rt.alloc())?);
    let is_line = !has_line_end(same.as_slice());
    holds_at(&rt, &"list", list == same && !is_line);
    Ok(())
}
