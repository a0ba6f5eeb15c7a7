// An image and its full size.
ghost use Rattle.std.specs.Prelude.{◌≡◌, ◌+◌, ◌≤◌};
ghost use Rattle.romfs_headers.specs.Whole.{Whole};

use crate::header::Header;
use crate::words::after_name;

// The bytes of an image and its full size, which they hold.
#[derive(Clone, Copy)]
pub struct Image<'a> {
    pub bytes: &'a [u8],
    pub full: usize,
    pub ghost whole: { Whole bytes.now full },
}

impl<'a> Image<'a> {
    ghost use Rattle.romfs_spec.specs.Layout.{name_length, first_root};
    ghost use Rattle.romfs_headers.specs.Known.{some_unless};

    // The bytes of the name at an index before its zero, or up to the full size.
    pub fn name_length(self, at: usize) -> usize
        requires { at ≤ self.full }
        ensures length { result ≡ name_length self.entry.bytes.now at }
        ensures within { at + result ≤ self.entry.full }
    {
        let most = self.full - at;
        for i in 0..most {
            if self.bytes[at + i] == 0 {
                return i;
            }
        }
        most
    }

    // The root's first header.
    #[tactic(auto, unfolding(romfs_spec::specs::Layout::first_root, romfs_spec::specs::Layout::after_name))]
    pub fn first_root(self) -> Option<usize>
        requires { 32 ≤ self.full }
        ensures { result ≡ some_unless self.entry.full (first_root self.entry.bytes.now) }
    {
        let first = after_name(16, self.name_length(16));
        if first == self.full {
            None
        } else {
            Some(first)
        }
    }

    // The header at an offset.
    pub fn header(self, at: usize) -> Header<'a>
        requires { at + 32 ≤ self.full }
        ensures image { result.image ≡ self.entry }
        ensures at { result.at ≡ at }
    {
        Header { image: self, at }
    }
}
