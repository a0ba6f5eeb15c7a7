// The TFS directory: 25 slots of 20 bytes on a part of 512 bytes.
#![tactic(auto)]

pub mod names; // names.rt: names as requests and slots have them
pub mod slots; // slots.rt: one slot
pub mod find; // find.rt: the directory, and searches over its slots
pub mod write; // write.rt: slots filled and cleared
pub mod volume; // volume.rt: the directory in its place in the image
pub mod lookup; // lookup.rt: the lookup of a name
