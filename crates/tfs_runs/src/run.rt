// Where a run lies and how long it is.
ghost use Rattle.std.specs.Prelude.{◌≡◌, ◌+◌, ◌-◌, ◌/◌, ◌%◌, ◌≤◌, ◌<◌};
ghost use Rattle.tfs_spec.specs.Layout.{inode_number};
ghost use Rattle.tfs_runs.specs.Place.{at, Small, Straight, Numbered};

use tfs_inode::read::Inode;
use tfs_layout::BLOCK;

// Where a run begins in the image, its length in bytes, and the number of the block behind it, if bytes are left.
#[derive(Clone, Copy)]
pub struct Run {
    pub at: usize,
    pub len: usize,
    pub next: usize,
}

// The number of the block of position p, where bytes are left: p is before `end`.
// No Option: callers know by their count whether bytes are left, and would ask a second time.
pub fn number_at(ino: Inode<'_>, p: usize, end: usize) -> usize
    requires { (end ≤ 65024) × Small ino.bytes.now end }
    ensures { Numbered ino.entry.bytes.now p end result }
{
    if end <= p {
        return 0;
    }
    ino.block_number(p / BLOCK)
}

// So many bytes from position p on lie one after another, at least 1 and at most `most`: as far as the blocks are seen to be neighbours. b is
// the number of the block of p, which has `first` bytes from there on.
fn straight(ino: Inode<'_>, p: usize, b: usize, first: usize, most: usize) -> usize
    requires { (0 < most) × (p + most ≤ 65024) × Small ino.bytes.now (p + most) × (b ≡ inode_number ino.bytes.now (p / 512)) × (first ≡ 512 - p % 512) }
    ensures { (0 < result) × (result ≤ most) × Straight ino.entry.bytes.now p result }
{
    let k = p / BLOCK;
    let mut len = first;
    let mut n = 1;
    // `while`, as the bound is on len, which rises by blocks from a first part: a range would count blocks, and give len by a product and a `min`.
    while len < most {
        if ino.block_number(k + n) != b + n {
            return len;
        }
        len += BLOCK;
        n += 1;
    }
    most
}

// The run from position p on, which lies in block b, of at most left bytes. The number of the block behind it is read here, since after the
// copy it would wait for the bytes stored.
pub fn run_of(ino: Inode<'_>, p: usize, b: usize, left: usize) -> Run
    requires { (0 < left) × (p + left ≤ 65024) × Small ino.bytes.now (p + left) × (b ≡ inode_number ino.bytes.now (p / 512)) }
    ensures { (result.at ≡ at ino.entry.bytes.now p) × (0 < result.len) × (result.len ≤ left) × Straight ino.entry.bytes.now p result.len × Numbered ino.entry.bytes.now (p + result.len) (p + left) result.next }
{
    let skip = p % BLOCK;
    let len = straight(ino, p, b, BLOCK - skip, left);
    Run {
        at: b * BLOCK + skip,
        len,
        next: number_at(ino, p + len, p + left),
    }
}
