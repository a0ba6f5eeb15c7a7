// One slot of the directory: its inode number in 4 bytes, then its name in 16.
ghost use Rattle.std.specs.Prelude.{◌≡◌, ◌≤◌, length};
ghost use Rattle.lists.specs.Lists.{pad_to};
ghost use Rattle.tfs_spec.specs.Layout.{slot_free, slot_inode, slot_used, slot_name, same_name, name_field};
ghost use Rattle.tfs_dir.specs.Slots.{last_same};

use crate::names::name_formed;
use spans::search::first_zero;
use spans::words::be32;
use tfs_layout::{NAME, NAME_AT, SLOT};

// A slot, on its bytes.
#[derive(Clone, Copy)]
pub struct Slot<'a> {
    pub bytes: &'a [u8],
    pub ghost whole: { length bytes.now ≡ 20 },
}

impl<'a> Slot<'a> {
    // The inode number.
    #[tactic(auto, unfolding(tfs_spec::specs::Layout::slot_inode))]
    pub fn inode(self) -> u32
        ensures { result ≡ slot_inode self.entry.bytes.now }
    {
        be32(self.bytes, 0)
    }

    // The bytes of the name.
    #[tactic(auto, unfolding(lists::specs::Lists::part))]
    pub fn name_field(self) -> &'a [u8]
        ensures bytes { result.now ≡ name_field self.entry.bytes.now }
        ensures long { length result.now ≡ 16 }
    {
        &self.bytes[NAME_AT..SLOT]
    }

    // Whether the slot is free: inode number 0, and an empty name.
    #[tactic(auto, using(crate::specs::Slots::first_byte), unfolding(tfs_spec::specs::Layout::slot_free, lists::specs::Lists::zero_at))]
    pub fn is_free(self) -> bool
        ensures { result ≡ slot_free self.entry.bytes.now }
    {
        self.inode() == 0 && self.bytes[NAME_AT] == 0
    }

    // Whether the slot is used, in a volume of n blocks.
    #[tactic(auto, unfolding(tfs_spec::specs::Layout::slot_used))]
    pub fn is_used(self, n: usize) -> bool
        ensures { result ≡ slot_used n self.entry.bytes.now }
    {
        let b = self.inode() as usize;
        3 <= b && b < n && name_formed(self.name_field())
    }

    // The length of the name, which ends at the first zero byte.
    pub fn name_length(self) -> usize
        ensures { (result ≡ length (slot_name self.entry.bytes.now)) × (result ≤ 16) }
    {
        first_zero(self.name_field())
    }

    // The name, up to its zero.
    pub fn name(self) -> &'a [u8]
        ensures { result.now ≡ slot_name self.entry.bytes.now }
    {
        let k = self.name_length();
        &self.bytes[NAME_AT..NAME_AT + k]
    }

    // Whether the last byte of the name stands in the slot at its place, or there is no such place.
    #[tactic(auto, unfolding(crate::specs::Slots::last_same))]
    fn last_same(self, name: &[u8]) -> bool
        ensures { result ≡ last_same self.entry.bytes.now name.now }
    {
        let k = name.len();
        k < 1 || NAME < k || self.bytes[NAME_AT + (k - 1)] == name[k - 1]
    }

    // Whether the slot has this name.
    #[tactic(auto, using(crate::specs::Slots::last_not), unfolding(tfs_spec::specs::Layout::same_name))]
    pub fn is_named(self, name: &[u8]) -> bool
        ensures { result ≡ same_name (slot_name self.entry.bytes.now) name.now }
    {
        self.last_same(name) && self.name() == name
    }

    // The name, padded with zeros.
    pub fn padded_name(self) -> [u8; NAME]
        ensures { result ≡ pad_to 16 (slot_name self.entry.bytes.now) }
    {
        let k = self.name_length();
        let e = NAME_AT + k;
        let mut name = [0u8; NAME];
        name[0..k].copy_from_slice(&self.bytes[NAME_AT..e]);
        name
    }
}
