// Read and write on a consistent volume: bytes between a buffer and the file of a name.
#![tactic(auto)]

pub mod compare; // compare.rt: what a read would give, compared with given bytes

ghost use Rattle.std.specs.Prelude.{◌≡◌, IfOk};
ghost use Rattle.tfs_spec.specs.Layout.{view};
ghost use Rattle.tfs_spec.specs.Check.{consistent, check};
ghost use Rattle.tfs_spec.specs.Consistent.{File};
ghost use Rattle.tfs_spec.specs.Requests.{transfer_answer, read_file, read_step, write_file, write_step};
ghost use Rattle.tfs_refusal.specs.Told.{step_told};
ghost use Rattle.tfs_transfer.specs.Told.{transferred_told};
ghost use Rattle.tfs_transfer.specs.Transfer.{reach_told, Reaches};

use tfs_dir::lookup::look_up;
use tfs_dir::volume::inode_at;
use tfs_inode::read::Inode;
use tfs_inode::volume::file_size;
use tfs_layout::{BLOCK, block_of, blocks_met};
use tfs_refusal::Refusal;
use tfs_runs::copy::copy_block;
use tfs_runs::read::read_runs;
use tfs_runs::write::write_runs;

// How many bytes a read or a write moved, and how many blocks of the file they lie in.
#[derive(Clone, Copy, Debug, PartialEq, Eq)]
pub struct Transferred {
    pub count: u32,
    pub blocks: u32,
}

// How far a transfer reaches: how many bytes it moves, and which block is the file's inode.
#[derive(Clone, Copy)]
pub struct Reach {
    pub count: usize,
    pub inode: usize,
}

// How far a transfer with a buffer of len bytes reaches in the file in slot s.
#[tactic(auto, using(tfs_steps::specs::Ready::long))]
pub fn reach_of(image: &[u8], s: usize, offset: u32, len: usize) -> Result<Reach, Refusal>
    requires passed { check 512 image.now ≡ consistent }
    requires file { File 512 (view 512 image.now) s }
    ensures answer { step_told (reach_told offset) result ≡ transfer_answer 512 (view 512 image.now) s offset len }
    ensures reach { IfOk result (Reaches image.now s offset len) }
{
    let inode = inode_at(image, s) as usize;
    let size = file_size(image, inode);
    if size < offset {
        return Err(Refusal::OffsetPastEnd);
    }
    let count = len.min((size - offset) as usize);
    Ok(Reach { count, inode })
}

// Reads from the offset on of the file in slot s into the buffer; the rest of the buffer stays.
fn read_file(image: &[u8], s: usize, offset: u32, buf: &mut [u8]) -> Result<Transferred, Refusal>
    requires passed { check 512 image.now ≡ consistent }
    requires file { File 512 (view 512 image.now) s }
    ensures answer { step_told transferred_told result ≡ (read_file 512 image.now s offset buf.old).answer }
    ensures buffer { buf.new ≡ (read_file 512 image.now s offset buf.old).buffer }
{
    let len = buf.len();
    let reach = reach_of(image, s, offset, len)?;
    read_runs(
        image,
        Inode::in_block(image, reach.inode),
        offset as usize,
        buf,
        reach.count,
    );
    let count = reach.count as u32;
    let blocks = blocks_met(offset, count);
    Ok(Transferred { count, blocks })
}

// The same of the file of this name, or the lookup's refusal.
#[tactic(auto, using(tfs_steps::specs::Ready::long))]
pub fn read_step(
    image: &[u8],
    name: &[u8],
    offset: u32,
    buf: &mut [u8],
) -> Result<Transferred, Refusal>
    requires passed { check 512 image.now ≡ consistent }
    ensures answer { step_told transferred_told result ≡ (read_step 512 image.now name.now offset buf.old).answer }
    ensures buffer { buf.new ≡ (read_step 512 image.now name.now offset buf.old).buffer }
{
    let s = look_up(image, name)?;
    read_file(image, s, offset, buf)
}

// Writes the buffer into the file in slot s from the offset on, as far as the file reaches.
fn write_file(image: &mut [u8], s: usize, offset: u32, buf: &[u8]) -> Result<Transferred, Refusal>
    requires passed { check 512 image.old ≡ consistent }
    requires file { File 512 (view 512 image.old) s }
    ensures answer { step_told transferred_told result ≡ (write_file 512 image.old s offset buf.now).answer }
    ensures image { image.new ≡ (write_file 512 image.old s offset buf.now).image }
{
    let len = buf.len();
    let reach = reach_of(image, s, offset, len)?;
    let mut bytes = [0u8; BLOCK];
    copy_block(&mut bytes, block_of(image, reach.inode));
    let inode = Inode { bytes: &bytes };
    write_runs(image, inode, offset as usize, buf, reach.count);
    let moved = reach.count as u32;
    let blocks = blocks_met(offset, moved);
    Ok(Transferred {
        count: moved,
        blocks,
    })
}

// The same of the file of this name, or the lookup's refusal.
#[tactic(auto, using(tfs_steps::specs::Ready::long))]
pub fn write_step(
    image: &mut [u8],
    name: &[u8],
    offset: u32,
    buf: &[u8],
) -> Result<Transferred, Refusal>
    requires passed { check 512 image.old ≡ consistent }
    ensures answer { step_told transferred_told result ≡ (write_step 512 image.old name.now offset buf.now).answer }
    ensures image { image.new ≡ (write_step 512 image.old name.now offset buf.now).image }
{
    let slot = look_up(image, name)?;
    write_file(image, slot, offset, buf)
}
