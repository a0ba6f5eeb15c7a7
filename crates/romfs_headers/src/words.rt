// Words and names of an image.
ghost use Rattle.std.specs.Prelude.{◌≡◌, ◌+◌, ◌*◌, ◌<◌, ◌≤◌, length};
ghost use Rattle.lists.specs.Lists.{same_list, word, part};
ghost use Rattle.romfs_headers.specs.Known.{some_unless};
ghost use Rattle.romfs_spec.specs.Layout.{pad16, full_size, sum_of_words};

use spans::words::be32;

pub fn word_at(image: &[u8], at: usize) -> usize
    requires { at + 4 ≤ length image.now }
    ensures word { result ≡ word image.now at }
    ensures small { result < 4294967296 }
{
    be32(image, at) as usize
}

// The sum of n words, modulo 2^32.
#[tactic(auto, unfolding(romfs_spec::specs::Layout::sum_of_words))]
pub fn sum_words(image: &[u8], at: usize, n: usize) -> u32
    requires { at + 4 * n ≤ length image.now }
    ensures { result ≡ sum_of_words image.now at n }
{
    let mut sum: u32 = 0;
    for k in 0..n {
        sum = sum.wrapping_add(be32(image, at + 4 * k));
    }
    sum
}

// An offset, where 0 stands for none.
pub fn offset(word: usize) -> Option<usize>
    ensures { result ≡ some_unless 0 word }
{
    if word == 0 { None } else { Some(word) }
}

// Whether the n bytes at an index are those of a name.
#[tactic(auto, unfolding(lists::specs::Lists::part))]
pub fn name_is(image: &[u8], at: usize, n: usize, name: &[u8]) -> bool
    requires { at + n ≤ length image.now }
    ensures { result ≡ same_list (part at n image.now) name.now }
{
    &image[at..at + n] == name
}

pub fn padded(n: usize) -> usize
    requires { n < 8589934592 }
    ensures { result ≡ pad16 n }
{
    (n + 15) / 16 * 16
}

// Where a padded name of n bytes at an index ends.
pub fn after_name(at: usize, n: usize) -> usize
    requires { at + n ≤ 4294967296 }
    ensures { result ≡ at + pad16 (n + 1) }
{
    at + padded(n + 1)
}

#[tactic(auto, unfolding(romfs_spec::specs::Layout::full_size))]
pub fn full_size(image: &[u8]) -> usize
    requires { 32 ≤ length image.now }
    ensures size { result ≡ full_size image.now }
    ensures small { result < 4294967296 }
{
    word_at(image, 8)
}
