//! Files in memory that can crash: one that can be set to fail, one whose I/O calls never allocate.
mod kept;
mod mem_disk;
mod reaching;
mod sure_disk;

pub use mem_disk::{MemDisk, Pick};
pub use sure_disk::SureDisk;
