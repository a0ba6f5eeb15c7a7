// The size and the numbers of an inode.
ghost use Rattle.std.specs.Prelude.{◌≡◌, ◌+◌, ◌*◌, ◌<◌, ◌≤◌, length};
ghost use Rattle.tfs_spec.specs.Layout.{block, need, inode_size, inode_number};
ghost use Rattle.tfs_inode.specs.Half.{half_at};

use spans::words::be32;
use tfs_layout::{BLOCK, LAST, block_of};

// The number of the two bytes at index `at`, the first the more significant.
#[tactic(auto, unfolding(crate::specs::Half::half_at))]
pub fn half(ino: &[u8], at: usize) -> usize
    requires { at + 2 ≤ length ino.now }
    ensures { result ≡ half_at ino.now at }
{
    u16::from_be_bytes([ino[at], ino[at + 1]]) as usize
}

// An inode, on the bytes of its block.
#[derive(Clone, Copy)]
pub struct Inode<'a> {
    pub bytes: &'a [u8],
    pub ghost whole: { length bytes.now ≡ 512 },
}

impl<'a> Inode<'a> {
    // The inode in block b.
    pub fn in_block(image: &'a [u8], b: usize) -> Inode<'a>
        requires { b * 512 + 512 ≤ length image.now }
        ensures { result.bytes.now ≡ block 512 image.now b }
    {
        Inode {
            bytes: block_of(image, b),
        }
    }

    // The file's size in bytes.
    #[tactic(auto, unfolding(tfs_spec::specs::Layout::inode_size))]
    pub fn size(self) -> u32
        ensures { result ≡ inode_size self.entry.bytes.now }
    {
        be32(self.bytes, 0)
    }

    // Block number k.
    #[tactic(auto, unfolding(tfs_spec::specs::Layout::inode_number))]
    pub fn number(self, k: usize) -> u32
        requires { k < 127 }
        ensures { result ≡ inode_number self.entry.bytes.now k }
    {
        be32(self.bytes, 4 + 4 * k)
    }

    // The number of the two bytes at index `at`, the first the more significant.
    pub fn half(self, at: usize) -> usize
        requires { at + 2 ≤ 512 }
        ensures { result ≡ half_at self.entry.bytes.now at }
    {
        half(self.bytes, at)
    }

    // Block number k where it is below 4,096, from its low half.
    #[tactic(auto, using(crate::specs::Half::low_small))]
    pub fn block_number(self, k: usize) -> usize
        requires { (k < 127) × (inode_number self.bytes.now k < 4096) }
        ensures { result ≡ inode_number self.entry.bytes.now k }
    {
        self.half(6 + 4 * k)
    }
}

// How many blocks hold `size` bytes.
#[tactic(auto, unfolding(tfs_spec::specs::Layout::need))]
pub fn blocks_needed(size: u32) -> usize
    ensures { result ≡ need 512 size }
{
    (size as usize + LAST) / BLOCK
}
