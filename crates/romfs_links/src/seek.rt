// One header, sought along the path to it.
ghost use Rattle.std.specs.Prelude.{◌≡◌};
ghost use Rattle.romfs_spec.specs.Check.{towards, seek, is_reached};
ghost use Rattle.romfs_facts.specs.Tested.{IsReached};
ghost use Rattle.romfs_headers.specs.Known.{some_unless};
ghost use Rattle.romfs_links.specs.Known.{up_to};

use crate::tree::Tree;
use romfs_headers::Header;

// An offset that is at or before the wanted one.
fn up_to(to: Option<usize>, want: usize) -> Option<usize>
    ensures { result ≡ up_to want to }
{
    match to {
        Some(to) if to <= want => Some(to),
        _ => None,
    }
}

// Where the path from a header to the wanted one goes on.
fn step_towards(header: Header<'_>, want: usize) -> Option<usize>
    ensures { result ≡ some_unless 0 (towards header.entry.image.bytes.now want header.entry.at) }
{
    match up_to(header.next(), want) {
        Some(next) => Some(next),
        None => up_to(header.first(), want),
    }
}

impl<'a> Tree<'a> {
    // Whether the path from a header leads to the wanted one.
    fn seek_from(self, from: usize, want: usize) -> bool
        requires { IsReached self.image.bytes.now from }
        ensures { result ≡ seek self.entry.image.bytes.now want self.entry.image.full from }
    {
        let mut p = from;
        // Along next and first headers, by what the image holds: there is no count to go by.
        while p != want {
            let Some(q) = step_towards(self.header(p), want) else {
                return false;
            };
            p = q;
        }
        true
    }

    // Whether a header is reached, by going down one path.
    pub fn is_reached(self, want: usize) -> bool
        ensures { result ≡ is_reached self.entry.image.bytes.now want }
    {
        match self.first_root() {
            Some(first) => self.seek_from(first, want),
            None => false,
        }
    }
}
