//! Disks: a file that is read, written, cut and synced, what a crash at any moment may leave of it, and
//! pairs of such files.
//!
//! A disk may tell what it reads, a clock that counts its calls, and for each moment the images that a crash
//! at that moment may have left. A memory disk tells them; a real file tells nothing.
#![tactic(auto)]

mod call;
mod call_log;
mod disk;
mod file_bytes;
mod file_disk;
mod memory;
mod pair;
mod read_ahead;
mod replay;
mod room_file;
mod side;
mod sure;
#[cfg(test)]
mod tests;

pub use disk::{Disk, DiskFault};
pub use file_disk::FileDisk;
pub use memory::MemoryDisk;
pub use pair::Pair;
pub use side::Side;
pub use sure::SureMemoryDisk;
