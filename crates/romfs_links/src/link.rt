// Rule 29 at one header.
ghost use Rattle.std.specs.Prelude.{◌≡◌, ◌==◌, true, false};
ghost use Rattle.romfs_spec.specs.Layout.{type_of_file};
ghost use Rattle.romfs_spec.specs.Check.{is_reached, bad_link};
ghost use Rattle.romfs_facts.specs.Tested.{IsReached};
ghost use Rattle.romfs_headers.specs.FileType.{type_number};
ghost use Rattle.romfs_links.specs.Window.{Window};
ghost use Rattle.romfs_links.specs.Tour.{links_on, State, Kept, Fine};

use crate::marks::{Marks, WINDOW};
use crate::tour::Found;
use crate::tree::Tree;
use romfs_headers::{FileType, Header};

// Whether a header leads on by its spec.info: a hard link, or a directory named "." or "..".
#[tactic(auto, unfolding(crate::specs::Tour::links_on))]
fn links_on(header: Header<'_>) -> bool
    ensures { result ≡ links_on header.entry.image.bytes.now header.entry.at }
{
    match header.file_type() {
        FileType::HardLink => true,
        FileType::Directory => header.is_dots(),
        _ => false,
    }
}

fn has_type(header: Header<'_>, kind: FileType) -> bool
    ensures { result ≡ (type_of_file header.entry.image.bytes.now header.entry.at == type_number kind) }
{
    header.file_type().number() == kind.number()
}

impl<'a> Tree<'a> {
    // Whether a header is reached. What is not marked is sought from the root: in a tour the first bad link's target alone.
    fn is_reached_in(self, want: usize, marks: &Marks) -> bool
        requires { Window self.image.bytes.now marks.now.lo marks.now.bits }
        ensures { result ≡ is_reached self.entry.image.bytes.now want }
    {
        marks.is_marked(want) || self.is_reached(want)
    }

    // Whether a header that leads on breaks rule 29.
    fn has_bad_link(self, p: usize, marks: &Marks) -> bool
        requires { IsReached self.image.bytes.now p × Window self.image.bytes.now marks.now.lo marks.now.bits × (links_on self.image.bytes.now p ≡ true) }
        ensures { result ≡ bad_link self.entry.image.bytes.now p }
    {
        let header = self.header(p);
        let to = header.info();
        if !self.is_reached_in(to, marks) {
            return true;
        }
        if !has_type(header, FileType::HardLink) {
            return false;
        }
        has_type(self.header(to), FileType::HardLink)
    }

    // Tests the link at a header if it leads into the window, and notes where it leads if that is behind it.
    pub fn test_link(self, p: usize, marks: &Marks, found: Found) -> Found
        requires { IsReached self.image.bytes.now p × Window self.image.bytes.now marks.now.lo marks.now.bits × State self.image.bytes.now self.image.full marks.now.lo found.low found.far }
        ensures state { State self.entry.image.bytes.now self.entry.image.full marks.now.lo result.low result.far }
        ensures kept { Kept found.low found.far result.low result.far }
        ensures fine { Fine self.entry.image.bytes.now self.entry.image.full marks.now.lo false result.low result.far p }
    {
        let header = self.header(p);
        if found.low <= p || !links_on(header) {
            return found;
        }
        let to = header.info();
        if to < marks.lo {
            return found;
        }
        if to < self.image.full && marks.lo + WINDOW <= to {
            return Found {
                far: to.min(found.far),
                ..found
            };
        }
        if self.has_bad_link(p, marks) {
            return Found { low: p, ..found };
        }
        found
    }
}
