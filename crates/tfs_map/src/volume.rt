// The map in its place in the image.
ghost use Rattle.std.specs.Prelude.{◌≡◌, ◌++◌, ◌≤◌, length, take, drop};
ghost use Rattle.tfs_spec.specs.Layout.{view, free_blocks};
ghost use Rattle.tfs_spec.specs.Requests.{free_from};

use crate::room::{free_count, pick};
use tfs_layout::{FILE_BLOCKS, blocks, map_of};

// How many blocks of the volume are free.
pub fn free_blocks(image: &[u8]) -> usize
    requires { 1536 ≤ length image.now }
    ensures { (result ≡ free_blocks (view 512 image.now)) × (result ≤ 4096) }
{
    let n = blocks(image);
    free_count(map_of(image), n)
}

// The lowest `want` free blocks of the volume, rising, to the front of out.
pub fn choose(image: &[u8], want: usize, out: &mut [u32; FILE_BLOCKS])
    requires { (1536 ≤ length image.now) × (want ≤ 128) × (want ≤ free_blocks (view 512 image.now)) }
    ensures { out.new ≡ take want (free_from (view 512 image.now).map 0 (view 512 image.now).n) ++ drop want out.old }
{
    let n = blocks(image);
    pick(map_of(image), n, want, out);
}
