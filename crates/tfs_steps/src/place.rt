// A file placed.
ghost use Rattle.std.specs.Prelude.{◌≡◌, ◌+◌, ◌*◌, ◌≤◌, ◌<◌, length};
ghost use Rattle.tfs_spec.specs.Layout.{set_block, inode_block, view};
ghost use Rattle.tfs_spec.specs.Requests.{store_all, place_stores};
ghost use Rattle.tfs_steps.specs.Place.{Placeable};

use crate::low::{enter, mark};
use tfs_inode::put::put_inode;
use tfs_layout::BLOCK;
use tfs_runs::blank::zero_blocks;

// Makes block b the inode of a file of `size` bytes in the given blocks.
#[tactic(auto, unfolding(lists::specs::Lists::part, lists::specs::Lists::with_part, tfs_spec::specs::Layout::block, tfs_spec::specs::Layout::set_block))]
fn store_inode(image: &mut [u8], b: usize, size: u32, blocks: &[u32])
    requires { (b * 512 + 512 ≤ length image.old) × (length blocks.now ≤ 127) }
    ensures { image.new ≡ set_block 512 image.old b (inode_block 512 size blocks.now) }
{
    let s = b * BLOCK;
    let e = s + BLOCK;
    put_inode(&mut image[s..e], size, blocks);
}

// Places a file of `size` bytes under a name in slot s: blocks[0] is its inode, the others are its content, all zero.
#[tactic(auto, using(crate::specs::Place::placed))]
pub fn place_file(image: &mut [u8], s: usize, name: &[u8], size: u32, blocks: &[u32])
    requires image { 1536 ≤ length image.old }
    requires slot { s < 25 }
    requires name { length name.now ≤ 15 }
    requires blocks { (1 ≤ length blocks.now) × (length blocks.now ≤ 128) × Placeable blocks.now (length image.old) }
    ensures { image.new ≡ store_all 512 image.old (place_stores 512 (view 512 image.old) s name.now size blocks.now) }
{
    let inode = blocks[0];
    let content = &blocks[1..];
    zero_blocks(image, content);
    store_inode(image, inode as usize, size, content);
    mark(image, blocks, true);
    enter(image, s, inode, name);
}
