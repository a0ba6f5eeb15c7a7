// What entry and content answer.
use romfs_headers::FileType;

// What a header says. next is the number that stands there, as C has it too: 0 in the last header of a list.
#[derive(Clone, Copy, Debug, PartialEq, Eq)]
pub struct Header {
    pub file_type: FileType,
    pub executable: bool,
    pub info: u32,
    pub size: u32,
    pub next: u32,
    pub name_length: u32,
}

// Where a content begins in the image, and its length.
#[derive(Clone, Copy, Debug, PartialEq, Eq)]
pub struct Part {
    pub offset: u32,
    pub length: u32,
}
