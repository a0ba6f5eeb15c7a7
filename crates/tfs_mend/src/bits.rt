// The bits that two maps do not share.
ghost use Rattle.std.specs.Prelude.{◌≡◌, ℕ, true, ◌+◌, ◌*◌, ◌≤◌, ◌<◌, ◌++◌, length, take, drop, IfSome, IfNone};
ghost use Rattle.lists.specs.Lists.{least};
ghost use Rattle.list_laws.specs.Least.{Below};
ghost use Rattle.tfs_mend.specs.Search.{Searched};
ghost use Rattle.tfs_mend.specs.Missing.{word_lacks, byte_lacks, is_missing};
ghost use Rattle.tfs_mend.specs.Extra.{is_extra, one_cleared, clear_extra};

use spans::words::be32;
use tfs_layout::BLOCK;
use tfs_map::bit::{map_bit, put_bit};

// The bytes of a word, and its bits.
const WORD: usize = 4;

const WORD_BITS: usize = 32;

// The first number from `from` on and below n with the test.
#[tactic(auto, unfolding(crate::specs::Search::Searched))]
fn first<F: Fn(usize) -> bool>(from: usize, n: usize, test: F) -> Option<usize>
    requires { (k : ℕ) → from ≤ k → k < n → F.pre test k }
    ensures { Searched (F.post test) from n result }
{
    for k in from..n {
        if test(k) {
            return Some(k);
        }
    }
    None
}

// Whether no byte of map lacks a bit that the byte of owned has; none is left out, so that many are tested at a time. Nothing is promised of a no.
fn none_lacks(map: &[u8], owned: &[u8]) -> bool
    requires { length map.now ≡ length owned.now }
    ensures { result ≡ true → Below (byte_lacks map.now owned.now) (length map.now) }
{
    let mut lacks = 0u8;
    for i in 0..map.len() {
        if owned[i] & map[i] != owned[i] {
            lacks = 1;
        }
    }
    lacks == 0
}

// Whether word k of map lacks a bit that word k of owned has.
#[tactic(auto, unfolding(crate::specs::Missing::word_lacks))]
fn word_lacks(map: &[u8], owned: &[u8], k: usize) -> bool
    requires { (4 * k + 4 ≤ length map.now) × (4 * k + 4 ≤ length owned.now) }
    ensures { result ≡ word_lacks map.now owned.now k }
{
    let at = WORD * k;
    let w = be32(owned, at);
    w & be32(map, at) != w
}

// So many of n words have no bit missing: all, or those before the first that lacks one. That there are no more is a matter of speed, and not promised.
fn held_words(map: &[u8], owned: &[u8], n: usize) -> usize
    requires { (4 * n ≤ length map.now) × (4 * n ≤ length owned.now) }
    ensures few { result ≤ n }
    ensures held { Below (is_missing map.now owned.now) (32 * result) }
{
    let end = WORD * n;
    if none_lacks(&map[0..end], &owned[0..end]) {
        return n;
    }
    first(0, n, |k| word_lacks(map, owned, k)).unwrap_or(n)
}

// The map of a volume, and the map of the blocks that are claimed.
#[derive(Clone, Copy)]
pub struct Maps<'a> {
    pub map: &'a [u8],
    pub owned: &'a [u8],
    ghost whole: { length map.now ≡ 512 },
    ghost own: { length owned.now ≡ 512 },
}

impl Maps<'_> {
    // Whether bit k is 0 in map and 1 in owned.
    #[tactic(auto, unfolding(crate::specs::Missing::is_missing))]
    fn is_missing(&self, k: usize) -> bool
        requires { k < 4096 }
        ensures { result ≡ is_missing self.now.map.now self.now.owned.now k }
    {
        !map_bit(self.map, k) && map_bit(self.owned, k)
    }

    // Whether bit k is 1 in map and 0 in owned.
    #[tactic(auto, unfolding(crate::specs::Extra::is_extra))]
    fn is_extra(&self, k: usize) -> bool
        requires { k < 4096 }
        ensures { result ≡ is_extra self.now.map.now self.now.owned.now k }
    {
        map_bit(self.map, k) && !map_bit(self.owned, k)
    }

    // The first bit below n that is missing: words that lack none are passed over.
    pub fn first_missing(&self, n: usize) -> Option<usize>
        requires { n ≤ 4096 }
        ensures found { IfSome result (λ r. (r < n) × (r ≡ least (is_missing self.now.map.now self.now.owned.now) n)) }
        ensures none { IfNone result (least (is_missing self.now.map.now self.now.owned.now) n ≡ n) }
    {
        let words = held_words(self.map, self.owned, n / WORD_BITS);
        first(WORD_BITS * words, n, |k| self.is_missing(k))
    }
}

// Clears bit k where it is 1 in map and 0 in owned.
#[tactic(auto, unfolding(crate::specs::Extra::one_cleared))]
fn clear_one(map: &mut [u8], owned: &[u8; BLOCK], k: usize)
    requires { (length map.old ≡ 512) × (k < 4096) }
    ensures { map.new ≡ one_cleared map.old owned.now k }
{
    let maps = Maps { map, owned };
    if maps.is_extra(k) {
        put_bit(map, k, false);
    }
}

// Takes the first words of owned into map.
fn take_words(map: &mut [u8], owned: &[u8; BLOCK], words: usize)
    requires { (length map.old ≡ 512) × (words ≤ 128) }
    ensures { map.new ≡ take (4 * words) owned.now ++ drop (4 * words) map.old }
{
    let end = WORD * words;
    map[0..end].copy_from_slice(&owned[0..end]);
}

// Clears each bit below n that is 1 in map and 0 in owned, where none is missing: whole words are taken from owned.
pub fn clear_extra(map: &mut [u8], owned: &[u8; BLOCK], n: usize)
    requires whole { length map.old ≡ 512 }
    requires few { n ≤ 4096 }
    requires none { least (is_missing map.old owned.now) n ≡ n }
    ensures { map.new ≡ clear_extra map.old owned.now n }
{
    let words = n / WORD_BITS;
    take_words(map, owned, words);
    for k in WORD_BITS * words..n {
        clear_one(map, owned, k);
    }
}
