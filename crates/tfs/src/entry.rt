// What list tells of a file.
ghost use Rattle.std.specs.Prelude.{◌≡◌, ◌≤◌, length, take};
ghost use Rattle.lists.specs.Lists.{pad_to};

use std::marker::Model;
use tfs_layout::NAME;

// A file: its name, inode number and size.
#[derive(Clone, Copy)]
pub struct Entry {
    pub name: Name,
    pub inode: u32,
    pub size: u32,
}

// The name of a file: the first 1 to 15 bytes of a field that is zero behind them.
#[derive(Clone, Copy)]
pub struct Name {
    field: [u8; NAME],
    len: usize,
}

impl Model for Name {
    ghost use Rattle.std.specs.Prelude.{◌≡◌, ◌≤◌, ℕ, List, length, take};
    ghost use Rattle.lists.specs.Lists.{pad_to};

    ghost Value = { List ℕ };

    ghost view = { λ n. take n.len n.field };

    ghost inverse = { λ l. record { field = pad_to 16 l; len = length l } };

    ghost invariant = { λ n. (1 ≤ n.len) × (n.len ≤ 15) × (n.field ≡ pad_to 16 (take n.len n.field)) };
}

impl Name {
    pub(crate) fn new(field: [u8; NAME], len: usize) -> Name
        requires { (1 ≤ len) × (len ≤ 15) × (field ≡ pad_to 16 (take len field)) }
        ensures { result ≡ take len field }
    {
        Name { field, len }
    }

    // Its bytes, 1 to 15 of them.
    pub fn as_bytes(&self) -> &[u8]
        ensures bytes { result.now ≡ self.now }
        ensures length { (1 ≤ length self.now) × (length self.now ≤ 15) }
    {
        &self.field[..self.len]
    }

    // Its bytes padded with zeros.
    pub fn padded(&self) -> [u8; NAME]
        ensures { result ≡ pad_to 16 self.now }
    {
        self.field
    }
}
