// An inode of a volume, on the 512 bytes of its block: the size, then 127 block numbers.
#![tactic(auto)]

pub mod read; // read.rt: the size and the numbers
pub mod rule; // rule.rt: which numbers make an inode wrong
pub mod blocks; // blocks.rt: the blocks of a file, listed
pub mod put; // put.rt: an inode written
pub mod volume; // volume.rt: an inode in its place in the image
