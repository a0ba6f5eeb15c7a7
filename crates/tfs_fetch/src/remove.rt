// The k-th store of a remove: directory, map.
ghost use Rattle.std.specs.Prelude.{◌≡◌, ◌≤◌, length};
ghost use Rattle.tfs_spec.specs.Layout.{view};
ghost use Rattle.tfs_spec.specs.Check.{consistent, check, file_claims};
ghost use Rattle.tfs_spec.specs.Consistent.{File};
ghost use Rattle.tfs_spec.specs.Requests.{value, store, removes, kth, fetch};
ghost use Rattle.tfs_refusal.specs.Told.{step_told};
ghost use Rattle.tfs_steps.specs.Erase.{erase_stores};

use crate::asked::unfetched;
use tfs_change::blocks_of;
use tfs_dir::lookup::look_up;
use tfs_dir::write::clear_slot;
use tfs_layout::{BLOCK, FILE_BLOCKS, dir_of, map_of};
use tfs_map::bits::put_bits;
use tfs_refusal::Refusal;
use tfs_runs::copy::copy_block;

// The bytes of the k-th store that erases the file in slot s, and the number of its block.
#[tactic(auto, using(tfs_steps::specs::Ready::long))]
fn remove_block(image: &[u8], s: usize, k: usize, out: &mut [u8]) -> u32
    requires passed { check 512 image.now ≡ consistent }
    requires file { File 512 (view 512 image.now) s }
    requires store { (1 ≤ k) × (k ≤ 2) }
    requires out { length out.old ≡ 512 }
    ensures { store result out.new ≡ kth k (erase_stores 512 image.now s (file_claims 512 (view 512 image.now) s)) }
{
    let directory = k == 1;
    if directory {
        copy_block(out, dir_of(image));
        clear_slot(out, s);
        return 2;
    }
    let mut list = [0u32; FILE_BLOCKS];
    let blocks = blocks_of(image, s, &mut list);
    copy_block(out, map_of(image));
    put_bits(out, blocks, false);
    1
}

// The k-th store of a remove: its block's number, and its bytes at the start of the buffer, whose rest stays.
#[tactic(auto, using(tfs_steps::specs::Ready::long), unfolding(tfs_spec::specs::Requests::fetch, tfs_spec::specs::Requests::perform, tfs_spec::specs::Requests::remove, tfs_spec::specs::Requests::remove_view))]
pub fn fetch_remove(image: &[u8], name: &[u8], k: usize, buf: &mut [u8]) -> Result<u32, Refusal>
    requires passed { check 512 image.now ≡ consistent }
    ensures answer { step_told value result ≡ (fetch 512 image.now (removes name.now) k buf.old).answer }
    ensures buffer { buf.new ≡ (fetch 512 image.now (removes name.now) k buf.old).buffer }
{
    let s = look_up(image, name)?;
    if unfetched(2, k, buf.len()) {
        return Err(Refusal::NoSuchStore);
    }
    Ok(remove_block(image, s, k, &mut buf[0..BLOCK]))
}
