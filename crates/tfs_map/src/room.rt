// The free blocks.
ghost use Rattle.std.specs.Prelude.{◌≡◌, ◌++◌, ◌+◌, ◌-◌, ◌≤◌, ◌<◌, length, take, drop};
ghost use Rattle.tfs_spec.specs.Requests.{free_from};
ghost use Rattle.tfs_map.specs.Free.{free_below, next_free};
ghost use Rattle.tfs_map.specs.Words.{word_held, held_from};

use crate::bit::map_bit;
use spans::words::word_is;
use tfs_layout::FILE_BLOCKS;
use tfs_ones::ones_below;

// How many of the first n blocks are free: those whose bit is not one.
pub fn free_count(map: &[u8], n: usize) -> usize
    requires { (length map.now ≡ 512) × (n ≤ 4096) }
    ensures { (result ≡ free_below map.now n) × (result ≤ n) }
{
    n - ones_below(map, n)
}

// Whether b begins a word below n of reserved blocks only.
#[tactic(auto, unfolding(crate::specs::Words::word_held))]
fn word_held(map: &[u8], b: usize, n: usize) -> bool
    requires { (length map.now ≡ 512) × (b < n) × (n ≤ 4096) }
    ensures { result ≡ word_held map.now b n }
{
    b % 32 == 0 && b + 32 <= n && word_is(map, b / 32, 255)
}

// How far a search for a free block may go from b on: over a reserved word, over a reserved block, or not.
fn held_from(map: &[u8], b: usize, n: usize) -> usize
    requires { (length map.now ≡ 512) × (b < n) × (n ≤ 4096) }
    ensures { (result ≡ held_from map.now b n) × (b + result ≤ n) }
{
    if word_held(map, b, n) {
        return 32;
    }
    if map_bit(map, b) {
        return 1;
    }
    0
}

// The lowest free block from `from` on, or n where none is below n.
pub fn next_free(map: &[u8], from: usize, n: usize) -> usize
    requires { (length map.now ≡ 512) × (from ≤ n) × (n ≤ 4096) }
    ensures { (result ≡ next_free map.now from (n - from)) × (result ≤ n) }
{
    let mut b = from;
    // `while`, as each step goes on as far as held_from tells, which no range has.
    while b < n {
        let held = held_from(map, b, n);
        if held == 0 {
            return b;
        }
        b += held;
    }
    b
}

// The lowest `want` free blocks, rising, to the front of out.
fn pick_into(map: &[u8], n: usize, want: usize, out: &mut [u32])
    requires { (length map.now ≡ 512) × (n ≤ 4096) × (want ≤ length out.old) × (want ≤ length (free_from map.now 0 n)) }
    ensures { out.new ≡ take want (free_from map.now 0 n) ++ drop want out.old }
{
    let mut from = 0;
    for i in 0..want {
        let b = next_free(map, from, n);
        out[i] = b as u32;
        from = b + 1;
    }
}

// The same to an array, which has room for the blocks of any file.
pub fn pick(map: &[u8], n: usize, want: usize, out: &mut [u32; FILE_BLOCKS])
    requires { (length map.now ≡ 512) × (n ≤ 4096) × (want ≤ 128) × (want ≤ length (free_from map.now 0 n)) }
    ensures { out.new ≡ take want (free_from map.now 0 n) ++ drop want out.old }
{
    pick_into(map, n, want, out);
}
