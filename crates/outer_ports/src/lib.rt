//! Where a program's bytes come from and go to: sources, sinks, disks, wires and docks, with forms over the
//! system's streams, files and sockets, and a source and a sink in memory.
#![tactic(auto)]

mod calls;
mod causes;
mod disk;
mod dock;
mod faults;
mod latest;
mod mem_sink;
mod retry;
mod std_sink;
mod std_source;
mod streams;
mod sure_source;
mod watch;
mod wire;

pub use calls::Calls;
pub use causes::{tell_cause, tell_line};
pub use disk::{Disk, FileDisk, Opening, disks_stay_honest, spans_join, sync_brings_none};
pub use dock::{Dock, DockStep, Listening, MemStep, TcpDock};
pub use faults::raise;
pub use fugue_ids::Sink;
pub use latest::Latest;
pub use mem_sink::MemSink;
pub use std_sink::StdSink;
pub use std_source::StdSource;
pub use streams::Source;
pub use sure_source::SureSource;
pub use wire::{Dial, TcpWire, Wire};
