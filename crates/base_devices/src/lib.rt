//! Sources and sinks of bytes that count their faults, disks, reading to the end, and writing whole texts.
//!
//! A device that fails returns [`Failed`] and counts the fault. So a caller that reports a fault can show, by the count, that the
//! device failed.
#![tactic(auto)]

mod adapters;
mod devices;
mod disks;
mod lines;
mod logs;
mod mem_disk;
mod whole;

pub use crate::lines::{LineRefusal, Lines, NextLine};
pub use adapters::{StdSink, StdSource};
pub use def_memory::Memory;
pub use devices::{Failed, Sink, Source};
pub use disks::{Disk, DiskRefusal};
pub use mem_disk::{MemDisk, overwrite};
pub use whole::{ReadRefusal, WriteFault, read_all, write_all};
