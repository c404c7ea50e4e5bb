//! Connections in memory: one that can be set to fail, one whose I/O calls never allocate.
mod mem_wire;
mod sure_wire;

pub use mem_wire::MemWire;
pub use sure_wire::SureWire;
