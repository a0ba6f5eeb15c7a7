// The map of a volume, on the 512 bytes of its block: bit b is 1 where block b is reserved.
#![tactic(auto)]

pub mod bit; // bit.rt: one bit
pub mod bits; // bits.rt: the bits of a list of blocks
pub mod compare; // compare.rt: two maps compared
mod room; // room.rt: the free blocks
pub mod volume; // volume.rt: the map in its place in the image
