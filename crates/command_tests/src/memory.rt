//! Lists and sure objects of a test, which stops where memory is refused for them: so no caller has a way out.

ghost use Rattle.std.specs.Prelude.{◌≡◌};

use memory_ports::{SureDisk, SureSink};
use std::process::Abort;

pub(crate) fn list<T: Copy + Drop>(rt: &(impl Abort + AllocGlobal), items: &[T]) -> Vec<T>
    ensures { result.items ≡ items.now }
{
    Vec::from_slice(rt.alloc(), items).expect(rt, "memory")
}

/// A sink that takes 4096 bytes a call, and so many in all.
pub(crate) fn sure_sink(rt: &(impl Abort + AllocGlobal), room: usize) -> SureSink {
    SureSink::new(rt.alloc(), 4096, room).expect(rt, "memory")
}

pub(crate) fn sure_disk(rt: &(impl Abort + AllocGlobal), bytes: Vec<u8>, room: usize) -> SureDisk {
    SureDisk::new(rt.alloc(), bytes, room).expect(rt, "memory")
}
