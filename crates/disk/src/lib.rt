//! A file that can fail and whose machine can crash at any moment: what a read gives, and what a crash may leave. It stands
//! on nothing. The main type is the trait `Disk`, with a file in memory and a file of the machine; `put` is a write that is
//! on the disk when it returns. Begin with `specs/Facts.antt`.
#![tactic(auto)]

mod changes;
mod crash;
mod disk;
mod file;
mod kept;
mod memory;

pub use changes::{DiskCall, Made};
pub use crash::Unsynced;
pub use disk::{Disk, Failed};
pub use file::FileDisk;
pub use kept::{keep, put, shorten};
pub use memory::{Failing, Fuse, MemoryDisk};
