// A tour of all reached headers: it marks those of a window, or tests the links that lead into it.
ghost use Rattle.std.specs.Prelude.{◌≡◌};
ghost use Rattle.romfs_facts.specs.Tested.{IsReached};
ghost use Rattle.romfs_links.specs.Known.{At};
ghost use Rattle.romfs_links.specs.Window.{Window};
ghost use Rattle.romfs_links.specs.Tour.{State, Kept, Fine, FineEntry, FineList, FineAll};

use crate::marks::Marks;
use crate::tree::Tree;
use romfs_headers::List;

// The lowest bad link, and the least offset behind the window that a link below it leads to. The full size stands for
// none, so that what is found later is the smaller of two numbers.
#[derive(Clone, Copy)]
pub struct Found {
    pub low: usize,
    pub far: usize,
}

impl<'a> Tree<'a> {
    fn visit(self, p: usize, fill: bool, marks: &mut Marks, found: Found) -> Found
        requires { IsReached self.image.bytes.now p × Window self.image.bytes.now marks.old.lo marks.old.bits × State self.image.bytes.now self.image.full marks.old.lo found.low found.far }
        ensures lo { marks.new.lo ≡ marks.old.lo }
        ensures window { Window self.entry.image.bytes.now marks.old.lo marks.new.bits }
        ensures state { State self.entry.image.bytes.now self.entry.image.full marks.old.lo result.low result.far }
        ensures kept { Kept found.low found.far result.low result.far }
        ensures fine { Fine self.entry.image.bytes.now self.entry.image.full marks.old.lo fill result.low result.far p }
    {
        if fill {
            marks.mark(p);
            return found;
        }
        self.test_link(p, marks, found)
    }

    // The entries of a list.
    #[cycle(tour_entry_tour_list)]
    fn tour_list(
        self,
        list: List,
        left: usize,
        fill: bool,
        marks: &mut Marks,
        found: Found,
    ) -> Found
        requires { At self.image.bytes.now self.image.full list.first list.bound left × Window self.image.bytes.now marks.old.lo marks.old.bits × State self.image.bytes.now self.image.full marks.old.lo found.low found.far }
        ensures lo { marks.new.lo ≡ marks.old.lo }
        ensures window { Window self.entry.image.bytes.now marks.old.lo marks.new.bits }
        ensures state { State self.entry.image.bytes.now self.entry.image.full marks.old.lo result.low result.far }
        ensures kept { Kept found.low found.far result.low result.far }
        ensures fine { FineList self.entry.image.bytes.now self.entry.image.full marks.old.lo fill result.low result.far list.first list.bound left }
    {
        let mut p = list.first;
        let mut here = found;
        // Along next, by what the image holds: there is no count to go by.
        loop {
            here = self.tour_entry(p, list.bound, left, fill, marks, here);
            let Some(next) = self.header(p).next() else {
                return here;
            };
            p = next;
        }
    }

    // An entry, then its list.
    #[cycle(tour_entry_tour_list)]
    fn tour_entry(
        self,
        p: usize,
        bound: usize,
        left: usize,
        fill: bool,
        marks: &mut Marks,
        found: Found,
    ) -> Found
        requires { At self.image.bytes.now self.image.full p bound left × Window self.image.bytes.now marks.old.lo marks.old.bits × State self.image.bytes.now self.image.full marks.old.lo found.low found.far }
        ensures lo { marks.new.lo ≡ marks.old.lo }
        ensures window { Window self.entry.image.bytes.now marks.old.lo marks.new.bits }
        ensures state { State self.entry.image.bytes.now self.entry.image.full marks.old.lo result.low result.far }
        ensures kept { Kept found.low found.far result.low result.far }
        ensures fine { FineEntry self.entry.image.bytes.now self.entry.image.full marks.old.lo fill result.low result.far p bound left }
    {
        let here = self.visit(p, fill, marks, found);
        match self.header(p).list(bound) {
            Some(list) => self.tour_list(list, left - 1, fill, marks, here),
            None => here,
        }
    }

    // The whole image.
    pub fn tour_all(self, fill: bool, marks: &mut Marks, found: Found) -> Found
        requires { Window self.image.bytes.now marks.old.lo marks.old.bits × State self.image.bytes.now self.image.full marks.old.lo found.low found.far }
        ensures lo { marks.new.lo ≡ marks.old.lo }
        ensures window { Window self.entry.image.bytes.now marks.old.lo marks.new.bits }
        ensures state { State self.entry.image.bytes.now self.entry.image.full marks.old.lo result.low result.far }
        ensures kept { Kept found.low found.far result.low result.far }
        ensures fine { FineAll self.entry.image.bytes.now self.entry.image.full marks.old.lo fill result.low result.far }
    {
        match self.first_root() {
            Some(first) => {
                let list = List {
                    first,
                    bound: self.image.full,
                };
                self.tour_list(list, 7, fill, marks, found)
            }
            None => found,
        }
    }
}
