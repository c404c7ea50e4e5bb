//! Sources, sinks, disks, wires and docks in memory, in two forms each: one whose calls fail where they are set to, and
//! one that is sure, which fails only for want of room. Tests run the program on them.
#![tactic(auto)]

mod disk;
mod dock;
mod mem_source;
mod reserved;
mod sure_sink;
mod wire;

pub use disk::{MemDisk, Pick, SureDisk};
pub use dock::{MemDock, SureDock};
pub use mem_source::MemSource;
pub use sure_sink::SureSink;
pub use wire::{MemWire, SureWire};
