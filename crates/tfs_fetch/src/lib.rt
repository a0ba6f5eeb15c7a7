// The k-th whole-block store of a create, a remove or a write on a consistent volume: no other block is made.
#![tactic(auto)]

mod asked; // asked.rt: whether a k-th store can be given
pub mod create; // create.rt: of a create
pub mod remove; // remove.rt: of a remove
pub mod write; // write.rt: of a write
