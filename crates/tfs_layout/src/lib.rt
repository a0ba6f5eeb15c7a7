// The numbers of the layout, the blocks of an image as its parts, and in how many blocks bytes of a file lie.
#![tactic(auto)]

ghost use Rattle.std.specs.Prelude.{◌≡◌, ◌+◌, ◌*◌, ◌≤◌, length};
ghost use Rattle.tfs_spec.specs.Layout.{blocks, block, view};
ghost use Rattle.tfs_spec.specs.Requests.{blocks_met};

// The bytes of a block.
pub const BLOCK: usize = 512;
// The last place in a block.
pub const LAST: usize = BLOCK - 1;
// Where the map and the directory begin, in blocks 1 and 2, and where these end: every volume has blocks 0 to 2.
pub const MAP_AT: usize = BLOCK;

pub const DIR_AT: usize = 2 * BLOCK;

pub const LOW_END: usize = 3 * BLOCK;
// A volume has at most as many blocks as the map has bits.
pub const MAX_BLOCKS: usize = 8 * BLOCK;
// The magic number of a volume.
pub const MAGIC: u32 = 3745;
// The bytes of a slot, and how many slots the directory has.
pub const SLOT: usize = 20;

pub const SLOTS: usize = BLOCK / SLOT;
// Where the name begins, in a slot and in block 0, and the bytes that are there for it.
pub const NAME_AT: usize = 4;

pub const NAME: usize = 16;
// The block numbers of an inode, and how many blocks a file has at most: these and the inode's own.
pub const NUMBERS: usize = BLOCK / 4 - 1;

pub const FILE_BLOCKS: usize = 1 + NUMBERS;
// The size of the largest file.
pub const MAX_SIZE: u32 = (NUMBERS * BLOCK) as u32;

// How many blocks the volume has: what the image holds, at most one for each bit of the map.
#[tactic(auto, unfolding(tfs_spec::specs::Layout::blocks))]
pub fn blocks(image: &[u8]) -> usize
    ensures { (result ≡ blocks 512 image.now) × (result ≤ 4096) }
{
    (image.len() / BLOCK).min(MAX_BLOCKS)
}

// In how many blocks of a file so many bytes from the offset on lie.
#[tactic(auto, unfolding(tfs_spec::specs::Requests::blocks_met))]
pub fn blocks_met(offset: u32, count: u32) -> u32
    ensures { result ≡ blocks_met 512 offset count }
{
    if count == 0 {
        return 0;
    }
    let start = offset as usize;
    let last = start + count as usize - 1;
    (last / BLOCK - start / BLOCK + 1) as u32
}

// Block b.
pub fn block_of(image: &[u8], b: usize) -> &[u8]
    requires { b * 512 + 512 ≤ length image.now }
    ensures { (result.now ≡ block 512 image.now b) × (length result.now ≡ 512) }
{
    let s = b * BLOCK;
    let e = s + BLOCK;
    &image[s..e]
}

// Block 0, the header.
#[tactic(auto, unfolding(tfs_spec::specs::Layout::view, tfs_spec::specs::Layout::view_n))]
pub fn head_of(image: &[u8]) -> &[u8]
    requires { 1536 ≤ length image.now }
    ensures { (result.now ≡ (view 512 image.now).head) × (length result.now ≡ 512) }
{
    block_of(image, 0)
}

// Block 1, the map.
#[tactic(auto, unfolding(tfs_spec::specs::Layout::view, tfs_spec::specs::Layout::view_n))]
pub fn map_of(image: &[u8]) -> &[u8]
    requires { 1536 ≤ length image.now }
    ensures { (result.now ≡ (view 512 image.now).map) × (length result.now ≡ 512) }
{
    block_of(image, 1)
}

// Block 2, the directory.
#[tactic(auto, unfolding(tfs_spec::specs::Layout::view, tfs_spec::specs::Layout::view_n))]
pub fn dir_of(image: &[u8]) -> &[u8]
    requires { 1536 ≤ length image.now }
    ensures { (result.now ≡ (view 512 image.now).dir) × (length result.now ≡ 512) }
{
    block_of(image, 2)
}
