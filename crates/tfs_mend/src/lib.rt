// Mend: the set bits of the map that no file claims are cleared.
#![tactic(auto)]

mod bits; // bits.rt: the bits that two maps do not share

ghost use Rattle.std.specs.Prelude.{◌≡◌, ◌≤◌, length};
ghost use Rattle.lists.specs.Lists.{least};
ghost use Rattle.tfs_spec.specs.Layout.{block, set_block, set_bits, view};
ghost use Rattle.tfs_spec.specs.Check.{consistent, claims, check};
ghost use Rattle.tfs_spec.specs.Requests.{mended, mend};
ghost use Rattle.tfs_facts.specs.FreshMap.{format_map};
ghost use Rattle.tfs_refusal.specs.Told.{verdict_told};
ghost use Rattle.tfs_check.specs.Order.{claims_verdict};
ghost use Rattle.tfs_mend.specs.Missing.{is_missing};
ghost use Rattle.tfs_mend.specs.Extra.{clear_extra};

use crate::bits::{Maps, clear_extra};
use tfs_check::check_claims;
use tfs_layout::{BLOCK, DIR_AT, MAP_AT, blocks, map_of};
use tfs_refusal::Fault;

// Clears in the map each bit below n that is 0 in owned, where no bit is missing.
#[tactic(auto, unfolding(lists::specs::Lists::part, lists::specs::Lists::with_part, tfs_spec::specs::Layout::block, tfs_spec::specs::Layout::set_block))]
fn clear_map(image: &mut [u8], owned: &[u8; BLOCK], n: usize)
    requires long { 1536 ≤ length image.old }
    requires few { n ≤ 4096 }
    requires none { least (is_missing (block 512 image.old 1) owned.now) n ≡ n }
    ensures { image.new ≡ set_block 512 image.old 1 (clear_extra (block 512 image.old 1) owned.now n) }
{
    clear_extra(&mut image[MAP_AT..DIR_AT], owned, n);
}

// Mends a volume that keeps rules 1 to 6, from the map of the claimed blocks, or gives the first bit that is missing.
fn mend_map(image: &mut [u8], owned: &[u8; BLOCK]) -> Result<(), Fault>
    requires kept { claims_verdict image.old ≡ consistent }
    requires marked { owned.now ≡ set_bits (format_map 512) 1 (claims 512 (view 512 image.old)) }
    ensures verdict { verdict_told result ≡ check 512 (mended 512 image.old) }
    ensures image { image.new ≡ (mend 512 image.old).image }
{
    let n = blocks(image);
    let maps = Maps {
        map: map_of(image),
        owned,
    };
    if let Some(bit) = maps.first_missing(n) {
        return Err(Fault::MapWrong(bit as u32));
    }
    clear_map(image, owned, n);
    Ok(())
}

// Mends the volume, or gives the first rule that it breaks when the bits that no file claims are clear.
#[tactic(auto, using(std::proofs::lemmas::Grind::common_steps, crate::specs::Mended::broken_check, crate::specs::Mended::broken_image))]
pub fn mend(image: &mut [u8]) -> Result<(), Fault>
    ensures verdict { verdict_told result ≡ check 512 (mended 512 image.old) }
    ensures image { image.new ≡ (mend 512 image.old).image }
{
    let mut owned = [0u8; BLOCK];
    let all = image.len();
    check_claims(&image[0..all], &mut owned)?;
    mend_map(image, &owned)
}
