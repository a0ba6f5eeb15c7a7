// Whether a k-th store can be given.
ghost use Rattle.std.specs.Prelude.{◌≡◌, ◌||◌, ltb, eqb};

use tfs_layout::BLOCK;

// Whether the k-th of `count` stores cannot be given: there is none, or the buffer is under one block.
pub fn unfetched(count: usize, k: usize, len: usize) -> bool
    ensures { result ≡ (eqb k 0 || (ltb count k || ltb len 512)) }
{
    k == 0 || count < k || len < BLOCK
}
