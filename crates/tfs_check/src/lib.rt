// The consistency check of a volume: the first broken rule, at its lowest place.
#![tactic(auto)]

mod header; // header.rt: rules 2 and 3, the header
mod files; // files.rt: a volume that keeps rules 1 to 4
mod claims; // claims.rt: rule 5, and the blocks that the files claim

ghost use Rattle.std.specs.Prelude.{◌≡◌, OnOk};
ghost use Rattle.lists.specs.Lists.{least};
ghost use Rattle.tfs_spec.specs.Layout.{blocks, set_bits, view};
ghost use Rattle.tfs_spec.specs.Check.{found, consistent, bad_inode, claims, check};
ghost use Rattle.tfs_facts.specs.FreshMap.{format_map};
ghost use Rattle.tfs_refusal.specs.Told.{verdict_told};
ghost use Rattle.tfs_check.specs.Order.{twice_verdict, claims_verdict, map_verdict};

use crate::files::Volume;
use crate::header::{label_wrong, magic_wrong};
use tfs_dir::find::Directory;
use tfs_layout::{BLOCK, LOW_END, blocks, map_of};
use tfs_map::compare::first_difference;
use tfs_refusal::Fault;

// The byte of the map that holds the bits of blocks 0 to 2, and these bits.
const LOW_BYTE: usize = 3;

const LOW_BITS: u8 = 0b111;

// Rules 5 and 6 of a volume that breaks no earlier rule. The claimed blocks get a map of their own, in which blocks 0 to 2 are marked.
#[tactic(auto, using(std::proofs::lemmas::Grind::common_steps, crate::specs::Order::claim_steps), unfolding(crate::specs::Order::twice_verdict))]
fn claim_blocks(volume: &Volume, owned: &mut [u8; BLOCK]) -> Result<(), Fault>
    ensures verdict { verdict_told result ≡ found 5 25 (least (bad_inode 512 (view 512 volume.now.image.now)) 25) (twice_verdict volume.now.n (view 512 volume.now.image.now)) }
    ensures marked { OnOk result (owned.new ≡ set_bits (format_map 512) 1 (claims 512 (view 512 volume.now.image.now))) }
{
    *owned = [0; BLOCK];
    owned[LOW_BYTE] = LOW_BITS;
    let twice = volume.claim_files(owned)?;
    let found = twice < volume.n;
    if found {
        return Err(Fault::BlockTwice(twice as u32));
    }
    Ok(())
}

// Rules 1 to 6. Where they hold, owned becomes the map of blocks 0 to 2 and all blocks that the files claim; where one is broken, it may hold anything.
#[tactic(auto, using(std::proofs::lemmas::Grind::common_steps, crate::specs::Order::slots_at), unfolding(crate::specs::Order::claims_verdict))]
pub fn check_claims(image: &[u8], owned: &mut [u8; BLOCK]) -> Result<(), Fault>
    ensures verdict { verdict_told result ≡ claims_verdict image.now }
    ensures marked { OnOk result (owned.new ≡ set_bits (format_map 512) 1 (claims 512 (view 512 image.now))) }
{
    if image.len() < LOW_END {
        return Err(Fault::ImageTooShort);
    }
    if magic_wrong(image) {
        return Err(Fault::BadMagic);
    }
    if label_wrong(image) {
        return Err(Fault::BadLabel);
    }
    let n = blocks(image);
    if let Some(slot) = Directory::of(image).first_bad_slot(n) {
        return Err(Fault::BadSlot(slot as u32));
    }
    claim_blocks(&Volume { image, n }, owned)
}

// Rule 7 of a volume that breaks no earlier rule, from the map of the claimed blocks.
#[tactic(auto, using(std::proofs::lemmas::Grind::common_steps, crate::specs::Order::kept_long, crate::specs::Order::map_bits), unfolding(crate::specs::Order::map_verdict))]
fn check_map(image: &[u8], owned: &[u8; BLOCK]) -> Result<(), Fault>
    requires kept { claims_verdict image.now ≡ consistent }
    requires marked { owned.now ≡ set_bits (format_map 512) 1 (claims 512 (view 512 image.now)) }
    ensures { verdict_told result ≡ map_verdict (blocks 512 image.now) (view 512 image.now) }
{
    let n = blocks(image);
    match first_difference(map_of(image), owned, n) {
        Some(bit) => Err(Fault::MapWrong(bit as u32)),
        None => Ok(()),
    }
}

// The first broken rule of the volume, at its lowest place. The image is handed on as its whole part: a slice handed on as it came is copied by a
// load of 16 bytes, which waits for all stores before it.
#[tactic(auto, using(std::proofs::lemmas::Grind::common_steps, crate::specs::Order::check_broken, crate::specs::Order::check_kept))]
pub fn check(image: &[u8]) -> Result<(), Fault>
    ensures { verdict_told result ≡ check 512 image.now }
{
    let mut owned = [0u8; BLOCK];
    let all = image.len();
    check_claims(&image[0..all], &mut owned)?;
    check_map(image, &owned)
}
