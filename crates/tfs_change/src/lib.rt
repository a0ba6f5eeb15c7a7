// Create and remove on a consistent volume.
#![tactic(auto)]

ghost use Rattle.std.specs.Prelude.{◌≡◌, IfOk};
ghost use Rattle.tfs_spec.specs.Layout.{view};
ghost use Rattle.tfs_spec.specs.Check.{consistent, check, file_claims};
ghost use Rattle.tfs_spec.specs.Consistent.{File};
ghost use Rattle.tfs_spec.specs.Requests.{done, value, create_view, create_step, remove_step};
ghost use Rattle.tfs_refusal.specs.Told.{step_told};
ghost use Rattle.tfs_map.specs.Under.{Under};
ghost use Rattle.tfs_change.specs.Create.{plan_told, Taken};

use tfs_dir::lookup::look_up;
use tfs_dir::names::name_allowed;
use tfs_dir::volume::{free_slot, inode_at, slot_of};
use tfs_inode::read::blocks_needed;
use tfs_inode::volume::file_blocks;
use tfs_layout::{FILE_BLOCKS, MAX_SIZE};
use tfs_map::volume::{choose, free_blocks};
use tfs_refusal::Refusal;
use tfs_steps::erase::erase_file;
use tfs_steps::place::place_file;

// What a create takes: a slot, and the blocks of the new file, the inode's first.
#[derive(Clone, Copy)]
pub struct Plan<'a> {
    pub slot: usize,
    pub blocks: &'a [u32],
}

// The refusals of create in their order, or the lowest free slot and the chosen blocks, which lie at the front of list.
#[tactic(auto, using(tfs_steps::specs::Ready::long, crate::specs::Create::want_few), unfolding(tfs_spec::specs::Requests::create_view))]
pub fn plan_of<'a>(
    image: &[u8],
    name: &[u8],
    size: u32,
    list: &'a mut [u32; FILE_BLOCKS],
) -> Result<Plan<'a>, Refusal>
    requires passed { check 512 image.now ≡ consistent }
    ensures answer { step_told plan_told result ≡ create_view 512 (view 512 image.now) name.now size }
    ensures plan { IfOk result (Taken image.now name.now size) }
{
    if !name_allowed(name) {
        return Err(Refusal::NameNotAllowed);
    }
    if MAX_SIZE < size {
        return Err(Refusal::SizeTooLarge);
    }
    if slot_of(image, name).is_some() {
        return Err(Refusal::NameExists);
    }
    let Some(slot) = free_slot(image) else {
        return Err(Refusal::NoFreeSlot);
    };
    let want = 1 + blocks_needed(size);
    if free_blocks(image) < want {
        return Err(Refusal::NoRoom);
    }
    choose(image, want, list);
    Ok(Plan {
        slot,
        blocks: &list[..want],
    })
}

// A file of this name and size, all zeros: the number of its inode.
#[tactic(auto, using(tfs_steps::specs::Ready::long))]
pub fn create_step(image: &mut [u8], name: &[u8], size: u32) -> Result<u32, Refusal>
    requires passed { check 512 image.old ≡ consistent }
    ensures answer { step_told value result ≡ (create_step 512 image.old name.now size).answer }
    ensures image { image.new ≡ (create_step 512 image.old name.now size).image }
{
    let mut list = [0u32; FILE_BLOCKS];
    let plan = plan_of(image, name, size, &mut list)?;
    place_file(image, plan.slot, name, size, plan.blocks);
    Ok(plan.blocks[0])
}

// The blocks of the file in slot s, the inode's first, which lie at the front of list.
#[tactic(auto, using(tfs_steps::specs::Ready::long))]
pub fn blocks_of<'a>(image: &[u8], s: usize, list: &'a mut [u32; FILE_BLOCKS]) -> &'a [u32]
    requires passed { check 512 image.now ≡ consistent }
    requires file { File 512 (view 512 image.now) s }
    ensures claims { result.now ≡ file_claims 512 (view 512 image.now) s }
    ensures under { Under 4096 result.now }
{
    let inode = inode_at(image, s);
    let count = file_blocks(image, inode as usize, list);
    &list[..count]
}

// Removes the file of this name: its blocks are free, its slot is zero.
#[tactic(auto, using(tfs_steps::specs::Ready::long), unfolding(tfs_spec::specs::Requests::remove_view))]
pub fn remove_step(image: &mut [u8], name: &[u8]) -> Result<(), Refusal>
    requires passed { check 512 image.old ≡ consistent }
    ensures answer { step_told (λ x. done) result ≡ (remove_step 512 image.old name.now).answer }
    ensures image { image.new ≡ (remove_step 512 image.old name.now).image }
{
    let s = look_up(image, name)?;
    let mut list = [0u32; FILE_BLOCKS];
    let blocks = blocks_of(image, s, &mut list);
    erase_file(image, s, blocks);
    Ok(())
}
