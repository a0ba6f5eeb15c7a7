// The bits of a list of blocks.
ghost use Rattle.std.specs.Prelude.{◌≡◌, length, cond};
ghost use Rattle.tfs_spec.specs.Layout.{set_bits};
ghost use Rattle.tfs_map.specs.Under.{Under};

use crate::bit::put_bit;

// Makes the bits of the blocks 1, or 0.
pub fn put_bits(map: &mut [u8], blocks: &[u32], one: bool)
    requires { (length map.old ≡ 512) × Under 4096 blocks.now }
    ensures { map.new ≡ set_bits map.old (cond one 1 0) blocks.now }
{
    for &b in blocks {
        put_bit(map, b as usize, one);
    }
}
