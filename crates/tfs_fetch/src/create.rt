// The k-th store of a create: content blocks in file order, inode, map, directory.
ghost use Rattle.std.specs.Prelude.{◌≡◌, ◌+◌, ◌≤◌, length};
ghost use Rattle.tfs_spec.specs.Layout.{view};
ghost use Rattle.tfs_spec.specs.Check.{consistent, check};
ghost use Rattle.tfs_spec.specs.Requests.{value, store, creates, create_stores, kth, fetch};
ghost use Rattle.tfs_refusal.specs.Told.{step_told};
ghost use Rattle.tfs_change.specs.Create.{Taken};

use crate::asked::unfetched;
use tfs_change::{Plan, plan_of};
use tfs_dir::write::put_slot;
use tfs_inode::put::put_inode;
use tfs_layout::{BLOCK, FILE_BLOCKS, dir_of, map_of};
use tfs_map::bits::put_bits;
use tfs_refusal::Refusal;
use tfs_runs::copy::copy_block;

// The bytes of the k-th store that places a file by its plan, and the number of its block.
#[tactic(auto, using(tfs_steps::specs::Ready::long))]
fn create_block(
    image: &[u8],
    name: &[u8],
    size: u32,
    plan: Plan<'_>,
    k: usize,
    out: &mut [u8],
) -> u32
    requires passed { check 512 image.now ≡ consistent }
    requires plan { Taken image.now name.now size plan }
    requires store { (1 ≤ k) × (k ≤ length plan.blocks.now + 2) }
    requires out { length out.old ≡ 512 }
    ensures { store result out.new ≡ kth k (create_stores 512 (view 512 image.now) name.now size) }
{
    let blocks = plan.blocks;
    let want = blocks.len();
    let content = k < want;
    if content {
        out.fill(0);
        return blocks[k];
    }
    let inode = k == want;
    if inode {
        put_inode(out, size, &blocks[1..]);
        return blocks[0];
    }
    let map = k == want + 1;
    if map {
        copy_block(out, map_of(image));
        put_bits(out, blocks, true);
        return 1;
    }
    copy_block(out, dir_of(image));
    put_slot(out, plan.slot, blocks[0], name);
    2
}

// The k-th store of a create: its block's number, and its bytes at the start of the buffer, whose rest stays.
#[tactic(auto, using(tfs_steps::specs::Ready::long), unfolding(tfs_spec::specs::Requests::fetch, tfs_spec::specs::Requests::perform, tfs_spec::specs::Requests::create))]
pub fn fetch_create(
    image: &[u8],
    name: &[u8],
    size: u32,
    k: usize,
    buf: &mut [u8],
) -> Result<u32, Refusal>
    requires passed { check 512 image.now ≡ consistent }
    ensures answer { step_told value result ≡ (fetch 512 image.now (creates name.now size) k buf.old).answer }
    ensures buffer { buf.new ≡ (fetch 512 image.now (creates name.now size) k buf.old).buffer }
{
    let mut list = [0u32; FILE_BLOCKS];
    let plan = plan_of(image, name, size, &mut list)?;
    if unfetched(plan.blocks.len() + 2, k, buf.len()) {
        return Err(Refusal::NoSuchStore);
    }
    Ok(create_block(image, name, size, plan, k, &mut buf[0..BLOCK]))
}
