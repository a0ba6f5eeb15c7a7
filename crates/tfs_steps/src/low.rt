// The map and the directory changed in place, in blocks 1 and 2.
ghost use Rattle.std.specs.Prelude.{◌≡◌, cond, ◌≤◌, ◌<◌, length, replicate};
ghost use Rattle.tfs_spec.specs.Layout.{block, set_block, set_bits, set_slot, entry};
ghost use Rattle.tfs_map.specs.Under.{Under};

use tfs_dir::write::{clear_slot, put_slot};
use tfs_layout::{DIR_AT, LOW_END, MAP_AT};
use tfs_map::bits::put_bits;

// Makes the map's bits of the blocks 1 or 0: reserves the blocks, or makes them free.
#[tactic(auto, unfolding(lists::specs::Lists::part, lists::specs::Lists::with_part, tfs_spec::specs::Layout::block, tfs_spec::specs::Layout::set_block))]
pub fn mark(image: &mut [u8], blocks: &[u32], one: bool)
    requires { (1536 ≤ length image.old) × Under 4096 blocks.now }
    ensures { image.new ≡ set_block 512 image.old 1 (set_bits (block 512 image.old 1) (cond one 1 0) blocks.now) }
{
    put_bits(&mut image[MAP_AT..DIR_AT], blocks, one);
}

// Enters a file in slot s.
#[tactic(auto, unfolding(lists::specs::Lists::part, lists::specs::Lists::with_part, tfs_spec::specs::Layout::block, tfs_spec::specs::Layout::set_block))]
pub fn enter(image: &mut [u8], s: usize, inode: u32, name: &[u8])
    requires { (1536 ≤ length image.old) × (s < 25) × (length name.now ≤ 15) }
    ensures { image.new ≡ set_block 512 image.old 2 (set_slot (block 512 image.old 2) s (entry inode name.now)) }
{
    put_slot(&mut image[DIR_AT..LOW_END], s, inode, name);
}

// Makes slot s free.
#[tactic(auto, unfolding(lists::specs::Lists::part, lists::specs::Lists::with_part, tfs_spec::specs::Layout::block, tfs_spec::specs::Layout::set_block))]
pub fn vacate(image: &mut [u8], s: usize)
    requires { (1536 ≤ length image.old) × (s < 25) }
    ensures { image.new ≡ set_block 512 image.old 2 (set_slot (block 512 image.old 2) s (replicate 20 0)) }
{
    clear_slot(&mut image[DIR_AT..LOW_END], s);
}
