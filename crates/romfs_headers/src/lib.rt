// romfs headers: words, names, and the rules that a header keeps by itself. The requests are in romfs.
#![tactic(auto)]

mod file_type; // file_type.rt: the types of files
mod header; // header.rt: a header
mod image; // image.rt: an image and its full size
mod read; // read.rt: rules 26 to 28 at a header
pub mod words; // words.rt: words and names

pub use file_type::FileType;
pub use header::{Header, List, Named};
pub use image::Image;
pub use words::{after_name, full_size, name_is, sum_words, word_at};
