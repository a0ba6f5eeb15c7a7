// An inode in its place in the image: the size and the blocks of the file whose inode is block b.
ghost use Rattle.std.specs.Prelude.{◌≡◌, ◌+◌, ◌*◌, ◌<◌, ◌≤◌, ◌++◌, length, drop};
ghost use Rattle.tfs_spec.specs.Layout.{block, need, inode_size};
ghost use Rattle.tfs_inode.specs.Claims.{claim_list};

use crate::read::Inode;
use tfs_layout::FILE_BLOCKS;

// The size in bytes.
pub fn file_size(image: &[u8], b: usize) -> u32
    requires { b * 512 + 512 ≤ length image.now }
    ensures { result ≡ inode_size (block 512 image.now b) }
{
    Inode::in_block(image, b).size()
}

// The inode's own block and the content blocks to the front of out, and how many they are.
pub fn file_blocks(image: &[u8], b: usize, out: &mut [u32; FILE_BLOCKS]) -> usize
    requires { (b * 512 + 512 ≤ length image.now) × (b < 4096) × (need 512 (inode_size (block 512 image.now b)) ≤ 127) }
    ensures { (result ≡ 1 + need 512 (inode_size (block 512 image.now b))) × (out.new ≡ claim_list b (block 512 image.now b) ++ drop (1 + need 512 (inode_size (block 512 image.now b))) out.old) }
{
    Inode::in_block(image, b).blocks(b as u32, out)
}
