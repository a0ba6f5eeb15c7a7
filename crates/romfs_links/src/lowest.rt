// Rule 29 on the whole image, window by window.
ghost use Rattle.std.specs.Prelude.{◌≡◌, ◌&&◌, ◌<◌, ◌≤◌, IfSome};
ghost use Rattle.lists.specs.Lists.{least};
ghost use Rattle.romfs_spec.specs.Check.{is_reached, bad_link};
ghost use Rattle.romfs_headers.specs.Known.{some_unless};
ghost use Rattle.romfs_links.specs.Window.{Window};

use crate::marks::Marks;
use crate::tour::Found;
use crate::tree::Tree;
use spans::copy::zero;

impl<'a> Tree<'a> {
    // Marks the reached headers of the window from lo on, and no others.
    fn mark_window(self, lo: usize, marks: &mut Marks)
        requires { lo ≤ 4294967296 }
        ensures window { Window self.entry.image.bytes.now lo marks.new.bits }
        ensures lo { marks.new.lo ≡ lo }
    {
        let full = self.image.full;
        zero(&mut marks.bits);
        marks.lo = lo;
        let none = Found {
            low: full,
            far: full,
        };
        self.tour_all(true, marks, none);
    }

    // The lowest reached header that breaks rule 29. The marks are those of the window from 0 on. Each tour tests the
    // links into one window, and the next window begins where one of the others leads to.
    pub fn lowest_bad_link(self, marks: &mut Marks) -> Option<usize>
        requires { (marks.old.lo ≡ 0) × Window self.image.bytes.now 0 marks.old.bits }
        ensures within { IfSome result (λ low. low < self.entry.image.full) }
        ensures lowest { result ≡ some_unless self.entry.image.full (least (λ p. is_reached self.entry.image.bytes.now p && bad_link self.entry.image.bytes.now p) self.entry.image.full) }
    {
        let full = self.image.full;
        let mut low = full;
        // Windows without a link to them are passed over: there is no count to go by.
        loop {
            let found = self.tour_all(false, marks, Found { low, far: full });
            low = found.low;
            if found.far == full {
                return if low == full { None } else { Some(low) };
            }
            let lo = found.far / 16 * 16;
            self.mark_window(lo, marks);
        }
    }
}
