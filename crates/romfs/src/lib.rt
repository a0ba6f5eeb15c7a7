// romfs: check, find, entry and content of a read-only image. Any image, name and offset may be given to any request.
// The rules are in romfs_spec; what an answer tells of them is in specs/Told.antt.
#![tactic(auto)]

mod error; // error.rt: why a request is refused
mod parts; // parts.rt: what find, entry and content answer
mod requests; // requests.rt: the requests
mod steps; // steps.rt: what a request does on an image that the check accepts

pub use error::Error;
pub use parts::{Header, Part};
pub use requests::{check, content, content_length, content_part, entry, find};
pub use romfs_headers::FileType;
pub use romfs_refusal::{Fault, Refusal};
