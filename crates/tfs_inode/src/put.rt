// An inode written.
ghost use Rattle.std.specs.Prelude.{◌≡◌, ◌≤◌, length};
ghost use Rattle.tfs_spec.specs.Layout.{inode_block};

use spans::copy::zero;
use spans::words::put32;

// The inode of a file of `size` bytes in the given blocks.
pub fn put_inode(ino: &mut [u8], size: u32, blocks: &[u32])
    requires { (length ino.old ≡ 512) × (length blocks.now ≤ 127) }
    ensures { ino.new ≡ inode_block 512 size blocks.now }
{
    zero(ino);
    put32(ino, 0, size);
    for i in 0..blocks.len() {
        put32(ino, 4 + 4 * i, blocks[i]);
    }
}
