// Rule 5 on an inode, in its parts: a number that the size asks for, and all that it does not ask for.
ghost use Rattle.std.specs.Prelude.{◌≡◌, ◌<◌, ◌≤◌};
ghost use Rattle.tfs_spec.specs.Layout.{need, in_range, inode_size, inode_number};
ghost use Rattle.tfs_inode.specs.Wrong.{Spare};

use crate::read::Inode;
use spans::search::all_zero;
use std::num::wrapping_sub_usize;
use tfs_layout::BLOCK;

// Whether b is a block of a file, in a volume of n blocks: one comparison, as 0 to 2 wrap to numbers above any n.
fn in_range(n: usize, b: usize) -> bool
    requires { 3 ≤ n }
    ensures { result ≡ in_range n b }
{
    wrapping_sub_usize(b, 3) < n - 3
}

impl Inode<'_> {
    // Whether block number k is a block of a file, in a volume of n blocks.
    pub fn in_volume(self, k: usize, n: usize) -> bool
        requires { (k < 127) × (3 ≤ n) × (n ≤ 4096) }
        ensures { result ≡ in_range n (inode_number self.entry.bytes.now k) }
    {
        let clear = self.half(4 + 4 * k) == 0;
        clear && in_range(n, self.half(6 + 4 * k))
    }

    // Whether a number after the `count` that the size asks for makes the inode wrong: one that is not 0.
    pub fn spare_wrong(self, count: usize) -> bool
        requires { (count ≡ need 512 (inode_size self.bytes.now)) × (count ≤ 127) }
        ensures { Spare self.entry.bytes.now result }
    {
        let at = 4 + 4 * count;
        !all_zero(&self.bytes[at..BLOCK])
    }
}
