// A header.
ghost use Rattle.std.specs.Prelude.{◌≡◌, ◌+◌, ◌≤◌};
ghost use Rattle.romfs_spec.specs.Layout as layout;

use crate::file_type::FileType;
use crate::image::Image;
use crate::words::{offset, word_at};

// The header at an offset: its 16 bytes and 16 of its name lie within the full size.
#[derive(Clone, Copy)]
pub struct Header<'a> {
    pub image: Image<'a>,
    pub at: usize,
    pub ghost inside: { at + 32 ≤ image.full },
}

// A header and the length of its name.
#[derive(Clone, Copy)]
pub struct Named<'a> {
    pub header: Header<'a>,
    pub name_length: usize,
    pub ghost long: { name_length ≡ layout.name_length header.image.bytes.now (header.at + 16) },
    pub ghost within: { header.at + 16 + name_length ≤ header.image.full },
}

// A list of headers: the first, and the bound before which they end.
#[derive(Clone, Copy)]
pub struct List {
    pub first: usize,
    pub bound: usize,
}

impl<'a> Header<'a> {
    ghost use Rattle.std.specs.Prelude.{◌<◌, ◌==◌, IfSome};
    ghost use Rattle.romfs_spec.specs.Layout.{type_of_file, executable, next, info, size, is_dots, descends};
    ghost use Rattle.romfs_headers.specs.Known.{some_unless, first_in, list_of};
    ghost use Rattle.romfs_headers.specs.FileType.{type_number};

    #[tactic(auto, unfolding(romfs_spec::specs::Layout::type_of_file))]
    pub fn file_type(self) -> FileType
        ensures { type_number result ≡ type_of_file self.entry.image.bytes.now self.entry.at }
    {
        FileType::of_word(word_at(self.image.bytes, self.at))
    }

    #[tactic(auto, unfolding(romfs_spec::specs::Layout::executable))]
    pub fn is_executable(self) -> bool
        ensures { result ≡ (executable self.entry.image.bytes.now self.entry.at == 1) }
    {
        word_at(self.image.bytes, self.at) / 8 % 2 == 1
    }

    // The next header of its list.
    #[tactic(auto, unfolding(romfs_spec::specs::Layout::next))]
    pub fn next(self) -> Option<usize>
        ensures next { result ≡ some_unless 0 (next self.entry.image.bytes.now self.entry.at) }
        ensures small { IfSome result (λ next. next < 4294967296) }
    {
        offset(word_at(self.image.bytes, self.at) / 16 * 16)
    }

    #[tactic(auto, unfolding(romfs_spec::specs::Layout::info))]
    pub fn info(self) -> usize
        ensures info { result ≡ info self.entry.image.bytes.now self.entry.at }
        ensures small { result < 4294967296 }
    {
        word_at(self.image.bytes, self.at + 4)
    }

    #[tactic(auto, unfolding(romfs_spec::specs::Layout::size))]
    pub fn size(self) -> usize
        ensures size { result ≡ size self.entry.image.bytes.now self.entry.at }
        ensures small { result < 4294967296 }
    {
        word_at(self.image.bytes, self.at + 8)
    }

    // The same with the length of its name.
    pub fn named(self) -> Named<'a>
        ensures { result.header ≡ self.entry }
    {
        Named {
            header: self,
            name_length: self.image.name_length(self.at + 16),
        }
    }

    // Whether its name is "." or "..", by its first three bytes.
    pub fn is_dots(self) -> bool
        ensures { result ≡ is_dots self.entry.image.bytes.now self.entry.at }
    {
        let p = self.at;
        let bytes = self.image.bytes;
        let one = bytes[p + 17] == 0;
        bytes[p + 16] == b'.' && (one || bytes[p + 17] == b'.' && bytes[p + 18] == 0)
    }

    #[tactic(auto, unfolding(romfs_spec::specs::Layout::descends))]
    pub fn goes_down(self) -> bool
        ensures { result ≡ descends self.entry.image.bytes.now self.entry.at }
    {
        self.file_type() == FileType::Directory && !self.is_dots()
    }

    // The first header of its own list.
    #[tactic(auto, unfolding(romfs_spec::specs::Layout::has_list))]
    pub fn first(self) -> Option<usize>
        ensures { result ≡ first_in self.entry.image.bytes.now self.entry.at }
    {
        if self.goes_down() {
            offset(self.info())
        } else {
            None
        }
    }

    // Its own list, of a header in a list with a bound.
    #[tactic(auto, unfolding(romfs_spec::specs::Layout::own))]
    pub fn list(self, bound: usize) -> Option<List>
        ensures { result ≡ list_of self.entry.image.bytes.now bound self.entry.at }
    {
        let first = self.first()?;
        Some(List {
            first,
            bound: self.next().unwrap_or(bound),
        })
    }
}
