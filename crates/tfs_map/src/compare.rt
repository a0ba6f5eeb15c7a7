// Two maps compared.
ghost use Rattle.std.specs.Prelude.{◌≡◌, ◌≤◌, ◌<◌, length, IfSome};
ghost use Rattle.std.specs.Option.{unwrap_or};
ghost use Rattle.lists.specs.Lists.{least};
ghost use Rattle.tfs_map.specs.Compare.{bit_differs};

use crate::bit::map_bit;
use spans::words::same_words;
use tfs_layout::BLOCK;

// Whether bit k differs.
#[tactic(auto, unfolding(crate::specs::Compare::bit_differs))]
fn bit_differs(a: &[u8], b: &[u8], k: usize) -> bool
    requires { (length a.now ≡ 512) × (length b.now ≡ 512) × (k < 4096) }
    ensures { result ≡ bit_differs a.now b.now k }
{
    map_bit(a, k) != map_bit(b, k)
}

// The first bit below n that differs: words that are the same are passed over.
pub fn first_difference(a: &[u8], b: &[u8; BLOCK], n: usize) -> Option<usize>
    requires { (length a.now ≡ 512) × (n ≤ 4096) }
    ensures first { unwrap_or result n ≡ least (bit_differs a.now b.now) n }
    ensures below { IfSome result (λ k. k < n) }
{
    let words = same_words(a, b, (n + 31) / 32);
    for k in 32 * words..n {
        if bit_differs(a, b, k) {
            return Some(k);
        }
    }
    None
}
