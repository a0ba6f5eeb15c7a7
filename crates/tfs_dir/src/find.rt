// The directory, and searches over its slots, from slot 0 on.
ghost use Rattle.std.specs.Prelude.{◌≡◌, ◌<◌, ◌≤◌, length, IfSome};
ghost use Rattle.std.specs.Option.{unwrap_or};
ghost use Rattle.lists.specs.Lists.{least};
ghost use Rattle.tfs_spec.specs.Layout.{View, view, slot};
ghost use Rattle.tfs_dir.specs.Find.{slot_holds, slot_repeats, slot_bad, find_name, find_free};

use crate::slots::Slot;
use tfs_layout::{SLOT, SLOTS, dir_of};

// The directory, on the bytes of its block.
#[derive(Clone, Copy)]
pub struct Directory<'a> {
    pub bytes: &'a [u8],
    pub ghost whole: { length bytes.now ≡ 512 },
}

impl<'a> Directory<'a> {
    // The directory of a volume.
    pub fn of(image: &'a [u8]) -> Directory<'a>
        requires { 1536 ≤ length image.now }
        ensures { result.bytes.now ≡ (view 512 image.now).dir }
    {
        Directory {
            bytes: dir_of(image),
        }
    }

    // Slot s.
    pub fn slot(self, s: usize) -> Slot<'a>
        requires { s < 25 }
        ensures { result.bytes.now ≡ slot self.entry.bytes.now s }
    {
        let a = s * SLOT;
        let e = a + SLOT;
        Slot {
            bytes: &self.bytes[a..e],
        }
    }

    // Whether slot s is taken, under this name.
    #[tactic(auto, unfolding(crate::specs::Find::slot_holds))]
    pub fn slot_holds(self, name: &[u8], s: usize) -> bool
        requires { s < 25 }
        ensures { result ≡ slot_holds self.entry.bytes.now name.now s }
    {
        let slot = self.slot(s);
        slot.is_named(name) && !slot.is_free()
    }

    // The first slot below n that is taken under this name.
    pub fn first_named(self, name: &[u8], n: usize) -> Option<usize>
        requires { n ≤ 25 }
        ensures first { unwrap_or result n ≡ least (slot_holds self.entry.bytes.now name.now) n }
        ensures below { IfSome result (λ s. s < n) }
    {
        for s in 0..n {
            if self.slot_holds(name, s) {
                return Some(s);
            }
        }
        None
    }

    // Whether a lower slot has the name of slot s.
    pub fn slot_repeats(self, s: usize) -> bool
        requires { s < 25 }
        ensures { result ≡ slot_repeats self.entry.bytes.now s }
    {
        let name = self.slot(s).name();
        self.first_named(name, s).is_some()
    }

    // Whether slot s breaks rule 4, in a volume of n blocks.
    #[tactic(auto, unfolding(crate::specs::Find::slot_bad))]
    pub fn slot_bad(self, n: usize, s: usize) -> bool
        requires { s < 25 }
        ensures { result ≡ slot_bad n self.entry.bytes.now s }
    {
        let slot = self.slot(s);
        !slot.is_free() && (!slot.is_used(n) || self.slot_repeats(s))
    }

    // The first slot that breaks rule 4.
    pub fn first_bad_slot(self, n: usize) -> Option<usize>
        ensures first { unwrap_or result 25 ≡ least (slot_bad n self.entry.bytes.now) 25 }
        ensures below { IfSome result (λ s. s < 25) }
    {
        for s in 0..SLOTS {
            if self.slot_bad(n, s) {
                return Some(s);
            }
        }
        None
    }

    // The slot of a name.
    #[tactic(auto, unfolding(crate::specs::Find::find_name, crate::specs::Find::slot_holds))]
    pub fn find_name(self, name: &[u8]) -> Option<usize>
        ensures first { unwrap_or result 25 ≡ find_name self.entry.bytes.now name.now }
        ensures below { IfSome result (λ s. s < 25) }
    {
        self.first_named(name, SLOTS)
    }

    // The first free slot.
    pub fn find_free(self) -> Option<usize>
        ensures first { unwrap_or result 25 ≡ find_free self.entry.bytes.now }
        ensures below { IfSome result (λ s. s < 25) }
    {
        for free in 0..SLOTS {
            if self.slot(free).is_free() {
                return Some(free);
            }
        }
        None
    }
}
