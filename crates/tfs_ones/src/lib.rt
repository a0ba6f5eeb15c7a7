// The ones of the map, counted by words.
#![tactic(auto)]

ghost use Rattle.std.specs.Prelude.{◌≡◌, ◌%◌, ◌^◌, ◌≤◌, ◌<◌, length};
ghost use Rattle.std.specs.Int.Count.{ones};
ghost use Rattle.tfs_spec.specs.Layout.{ones_below, ones_by_words};

use spans::words::be32;

// How many ones a word has below its bit m: the mask is the number 2^32 - 1, shifted so that its m low bits are ones.
fn low_ones(w: u32, m: u32) -> u32
    requires { (1 ≤ m) × (m < 32) }
    ensures { (result ≡ ones (w % 2 ^ m)) × (result ≤ m) }
{
    (w & (u32::MAX >> (32 - m))).count_ones()
}

// How many of the bits below n are ones: those of each word that starts below n, the last of these cut at n.
pub fn ones_below(map: &[u8], n: usize) -> usize
    requires { (length map.now ≡ 512) × (n ≤ 4096) }
    ensures { (result ≡ ones_by_words map.now n) × (result ≡ ones_below map.now n) × (result ≤ n) }
{
    let whole = n / 32;
    // In 32 bits, of which four sums lie side by side in a register.
    let mut ones: u32 = 0;
    for k in 0..whole {
        ones += be32(map, 4 * k).count_ones();
    }
    let left = n % 32;
    if left == 0 {
        return ones as usize;
    }
    (ones + low_ones(be32(map, 4 * whole), left as u32)) as usize
}
