//! Listeners in memory: one that can be set to fail, one whose I/O calls never allocate.
mod arrivals;
mod mem_dock;
mod sure_dock;
mod transcripts;

pub use mem_dock::MemDock;
pub use sure_dock::SureDock;
