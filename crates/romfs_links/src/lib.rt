// romfs links: which headers of an image are reached, and rule 29. The image has passed rules 21 to 28.
#![tactic(auto)]

mod link; // link.rt: one link
mod lowest; // lowest.rt: the lowest bad link
mod marks; // marks.rt: the reached headers of a part of the image, as bits
mod seek; // seek.rt: one header sought
mod tour; // tour.rt: all headers visited
mod tree; // tree.rt: an image that has passed rules 21 to 28

pub use marks::{Marks, WINDOW};
pub use tree::Tree;
