//! Titles read from a draft.

ghost use Rattle.std.specs.Prelude.{◌≡◌, IfOk, encode_utf8_all};

use fugue_ids::{NoMemory, Title};
use std::alloc::Global;

/// The title that a text is.
pub(crate) fn title_of(alloc: Global, title: &str) -> Result<Title, NoMemory>
    ensures { IfOk result (λ read. encode_utf8_all read ≡ title.now) }
{
    match Title::read(alloc, title) {
        Ok(title) => Ok(title),
        Err(_) => Err(NoMemory),
    }
}
