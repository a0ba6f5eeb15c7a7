// The 64 bytes of the timing file: made of numbers and values, and read back. All numbers are big-endian.
ghost use Rattle.std.specs.Prelude.{◌≡◌, ◌++◌, ◌+◌, ◌≤◌, length, take};
ghost use Rattle.lists.specs.Lists.{word, bytes4};
ghost use Rattle.timing_spec.specs.Timing.{bytes2, timing_bytes, pair_at, timing_of};
ghost use Rattle.timing.specs.Told.{timing};

use crate::{SIZE, VALUES};

// Where the maker's number stands, behind the board's.
pub const MAKER: usize = 4;

// Where the first value stands.
const FIRST: usize = 8;

// ---- reading
// The number in the four bytes at index `at`.
#[tactic(auto, unfolding(lists::specs::Lists::word))]
pub fn number_at(bytes: &[u8], at: usize) -> u32
    requires { at + 4 ≤ length bytes.now }
    ensures { result ≡ word bytes.now at }
{
    u32::from_be_bytes([bytes[at], bytes[at + 1], bytes[at + 2], bytes[at + 3]])
}

// The value in the two bytes at index `at`.
fn value_at(bytes: &[u8], at: usize) -> u16
    requires { at + 2 ≤ length bytes.now }
    ensures { result ≡ pair_at bytes.now at }
{
    u16::from_be_bytes([bytes[at], bytes[at + 1]])
}

// The values in the bytes of the file.
pub fn values_of(bytes: &[u8]) -> [u16; VALUES]
    requires { 64 ≤ length bytes.now }
    ensures { result ≡ (timing_of bytes.now).values }
{
    let mut values = [0u16; VALUES];
    for i in 0..VALUES {
        values[i] = value_at(bytes, FIRST + 2 * i);
    }
    values
}

// ---- writing
// Puts a number into the four bytes at index `at`.
fn put_number(bytes: &mut [u8], at: usize, n: u32)
    requires { at + 4 ≤ length bytes.old }
    ensures { take (at + 4) bytes.new ≡ take at bytes.old ++ bytes4 n }
{
    bytes[at..at + 4].copy_from_slice(&n.to_be_bytes());
}

// Puts a value into the two bytes at index `at`.
fn put_value(bytes: &mut [u8], at: usize, n: u16)
    requires { at + 2 ≤ length bytes.old }
    ensures { take (at + 2) bytes.new ≡ take at bytes.old ++ bytes2 n }
{
    bytes[at..at + 2].copy_from_slice(&n.to_be_bytes());
}

// The bytes of the file.
pub fn bytes_of(board: u32, maker: u32, values: &[u16]) -> [u8; SIZE]
    requires { length values.now ≡ 28 }
    ensures { result ≡ timing_bytes (timing board maker values.now) }
{
    let mut bytes = [0u8; SIZE];
    put_number(&mut bytes, 0, board);
    put_number(&mut bytes, MAKER, maker);
    for i in 0..VALUES {
        put_value(&mut bytes, FIRST + 2 * i, values[i]);
    }
    bytes
}
