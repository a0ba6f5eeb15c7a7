// Big-endian 32-bit words.
ghost use Rattle.std.specs.Prelude.{◌≡◌, ◌+◌, ◌*◌, ◌≤◌, length};
ghost use Rattle.lists.specs.Lists.{word_of, word, bytes4, with_part, least};
ghost use Rattle.spans.specs.Alike.{word_is, word_same, word_differs};

use crate::search::same_long;

// The word of four bytes, the first the most significant.
pub fn word_of(a: u8, b: u8, c: u8, d: u8) -> u32
    ensures { result ≡ word_of a b c d }
{
    u32::from_be_bytes([a, b, c, d])
}

// The word at index `at`.
#[tactic(auto, unfolding(lists::specs::Lists::word))]
pub fn be32(p: &[u8], at: usize) -> u32
    requires { at + 4 ≤ length p.now }
    ensures { result ≡ word p.now at }
{
    u32::from_be_bytes([p[at], p[at + 1], p[at + 2], p[at + 3]])
}

// Writes the word v at index `at`.
#[tactic(auto, unfolding(lists::specs::Lists::with_part))]
pub fn put32(p: &mut [u8], at: usize, v: u32)
    requires { at + 4 ≤ length p.old }
    ensures { p.new ≡ with_part at 4 (bytes4 v) p.old }
{
    p[at..at + 4].copy_from_slice(&v.to_be_bytes());
}

// Whether each byte of word k is v.
#[tactic(auto, using(crate::specs::Alike::four_same), unfolding(crate::specs::Alike::word_is))]
pub fn word_is(p: &[u8], k: usize, v: u8) -> bool
    requires { 4 * k + 4 ≤ length p.now }
    ensures { result ≡ word_is p.now k v }
{
    let at = 4 * k;
    word_of(p[at], p[at + 1], p[at + 2], p[at + 3]) == word_of(v, v, v, v)
}

// Whether word k is the same in p and q.
#[tactic(auto, using(crate::specs::Alike::four_same), unfolding(crate::specs::Alike::word_same, lists::specs::Lists::word))]
pub fn word_same(p: &[u8], q: &[u8], k: usize) -> bool
    requires { (4 * k + 4 ≤ length p.now) × (4 * k + 4 ≤ length q.now) }
    ensures { result ≡ word_same p.now q.now k }
{
    let at = 4 * k;
    be32(p, at) == be32(q, at)
}

// The first of n words that is not the same in p and q, or n: one by one.
#[tactic(auto, using(list_laws::specs::Least::none_found), unfolding(crate::specs::Alike::word_differs))]
fn other_word(p: &[u8], q: &[u8], n: usize) -> usize
    requires { (4 * n ≤ length p.now) × (4 * n ≤ length q.now) }
    ensures { result ≡ least (word_differs p.now q.now) n }
{
    for k in 0..n {
        if !word_same(p, q, k) {
            return k;
        }
    }
    n
}

// The same where most are expected to be the same: all are compared at once first.
pub fn same_words(p: &[u8], q: &[u8], n: usize) -> usize
    requires { (4 * n ≤ length p.now) × (4 * n ≤ length q.now) }
    ensures { result ≡ least (word_differs p.now q.now) n }
{
    let end = 4 * n;
    if same_long(&p[0..end], &q[0..end]) {
        return n;
    }
    other_word(p, q, n)
}
