// The steps of requests on the whole image. What a step leaves is an equation with whole-block stores.
#![tactic(auto)]

pub mod format; // format.rt: blocks 0 to 2 of a fresh volume
mod low; // low.rt: the map and the directory changed in place
pub mod place; // place.rt: a file placed
pub mod erase; // erase.rt: a file erased
pub mod free; // free.rt: free bytes
