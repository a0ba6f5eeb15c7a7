// One bit of the map.
ghost use Rattle.std.specs.Prelude.{◌≡◌, ◌%◌, ◌<◌, length, cond};
ghost use Rattle.tfs_spec.specs.Layout.{map_byte, map_bit, set_bit};

use spans::bits::{bit_of, with_bit};

// The index of the byte that holds bit b.
fn map_byte(b: usize) -> usize
    requires { b < 4096 }
    ensures { (result ≡ map_byte b) × (result < 512) }
{
    4 * (b / 32) + (3 - b % 32 / 8)
}

// The place of bit b in its byte.
fn map_place(b: usize) -> u32
    ensures { (result ≡ b % 8) × (result < 8) }
{
    (b % 8) as u32
}

// Whether bit b is 1.
#[tactic(auto, unfolding(tfs_spec::specs::Layout::map_bit))]
pub fn map_bit(map: &[u8], b: usize) -> bool
    requires { (length map.now ≡ 512) × (b < 4096) }
    ensures { result ≡ map_bit map.now b }
{
    let at = map_byte(b);
    bit_of(map[at], map_place(b)) == 1
}

// Makes bit b 1, or 0.
#[tactic(auto, unfolding(tfs_spec::specs::Layout::set_bit))]
pub fn put_bit(map: &mut [u8], b: usize, one: bool)
    requires { (length map.old ≡ 512) × (b < 4096) }
    ensures { map.new ≡ set_bit map.old b (cond one 1 0) }
{
    let at = map_byte(b);
    map[at] = with_bit(map[at], map_place(b), one);
}

// Makes bit b 1.
pub fn set_bit(map: &mut [u8], b: usize)
    requires { (length map.old ≡ 512) × (b < 4096) }
    ensures { map.new ≡ set_bit map.old b 1 }
{
    put_bit(map, b, true);
}
