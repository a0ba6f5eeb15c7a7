// Bytes moved between a buffer and the blocks of a file, given by the bytes of its inode. Every step moves a run: bytes that lie one after another.
#![tactic(auto)]

mod run; // run.rt: where a run lies and how long it is
pub mod copy; // copy.rt: spans copied
pub mod read; // read.rt: from the blocks to a buffer
pub mod write; // write.rt: from a buffer to the blocks
pub mod blank; // blank.rt: whole blocks made zero
pub mod same; // same.rt: the blocks compared with given bytes
