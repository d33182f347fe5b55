//! A store of one record on a disk: whatever moment a crash comes at, it leaves the record from before the call or the new one.
#![tactic(auto)]

mod block_file;
mod disk;
mod fault;
mod file_disk;
mod file_fault;
mod host_file;
mod laying_out;
mod log;
mod reading;
mod slots;
mod store;
mod store_file;
mod writing;

pub use block_file::BlockFile;
pub use disk::{Disk, DiskFault};
pub use fault::OpenFault;
pub use file_disk::FileDisk;
pub use file_fault::FileFault;
pub use host_file::HostFile;
pub use log::{CallLog, DiskCall};
pub use slots::new_blocks;
pub use store::{OpenRefused, SlotStore};
pub use store_file::{FileStore, create_store, open_store};
