// The k-th store of a write: the met content blocks in file order.
ghost use Rattle.std.specs.Prelude.{◌≡◌, ◌+◌, ◌*◌, ◌≤◌, ◌<◌, length};
ghost use Rattle.tfs_spec.specs.Layout.{block, view};
ghost use Rattle.tfs_spec.specs.Check.{consistent, check};
ghost use Rattle.tfs_spec.specs.Consistent.{File};
ghost use Rattle.tfs_spec.specs.Requests.{value, writes, transfer_answer, write_stores, fetch};
ghost use Rattle.tfs_facts.specs.Fetched.{given, overlaid};
ghost use Rattle.tfs_refusal.specs.Told.{step_told};

use crate::asked::unfetched;
use tfs_dir::lookup::look_up;
use tfs_inode::read::Inode;
use tfs_layout::{BLOCK, block_of, blocks_met};
use tfs_refusal::Refusal;
use tfs_runs::copy::{copy, copy_block};
use tfs_transfer::reach_of;

// Puts bytes that are written from position `from` of a file on over the block whose first byte is position `at`, as far as they lie in it.
#[tactic(auto, using(crate::specs::Write::overlay_is))]
fn overlay(block: &mut [u8], at: usize, from: usize, bytes: &[u8])
    requires { (length block.old ≡ 512) × (from < at + 512) × (at < from + length bytes.now) × (from + length bytes.now < 4294967296) }
    ensures { block.new ≡ overlaid 512 at from bytes.now block.old }
{
    let lo = from.saturating_sub(at);
    let skip = at.saturating_sub(from);
    let hi = BLOCK.min(from + bytes.len() - at);
    let end = skip + (hi - lo);
    copy(&mut block[lo..hi], &bytes[skip..end]);
}

// Block b, the i-th of a file, as a write of the bytes from the offset on leaves it.
fn write_block(image: &[u8], b: usize, i: usize, offset: usize, bytes: &[u8], out: &mut [u8])
    requires { (b * 512 + 512 ≤ length image.now) × (length out.old ≡ 512) × (offset < i * 512 + 512) × (i * 512 < offset + length bytes.now) × (offset + length bytes.now < 4294967296) }
    ensures { out.new ≡ overlaid 512 (i * 512) offset bytes.now (block 512 image.now b) }
{
    copy_block(out, block_of(image, b));
    overlay(out, i * BLOCK, offset, bytes);
}

// The k-th store of a write to the file in slot s.
#[tactic(auto, unfolding(tfs_facts::specs::Fetched::given))]
fn file_store(
    image: &[u8],
    s: usize,
    offset: u32,
    bytes: &[u8],
    k: usize,
    buf: &mut [u8],
) -> Result<u32, Refusal>
    requires passed { check 512 image.now ≡ consistent }
    requires file { File 512 (view 512 image.now) s }
    ensures answer { step_told value result ≡ (given 512 image.now (transfer_answer 512 (view 512 image.now) s offset (length bytes.now)) (write_stores 512 (view 512 image.now) image.now s offset bytes.now) k buf.old).answer }
    ensures buffer { buf.new ≡ (given 512 image.now (transfer_answer 512 (view 512 image.now) s offset (length bytes.now)) (write_stores 512 (view 512 image.now) image.now s offset bytes.now) k buf.old).buffer }
{
    let len = bytes.len();
    let reach = reach_of(image, s, offset, len)?;
    let met = blocks_met(offset, reach.count as u32);
    if unfetched(met as usize, k, buf.len()) {
        return Err(Refusal::NoSuchStore);
    }
    let from = offset as usize;
    let i = from / BLOCK + (k - 1);
    let b = Inode::in_block(image, reach.inode).number(i);
    write_block(
        image,
        b as usize,
        i,
        from,
        &bytes[..reach.count],
        &mut buf[0..BLOCK],
    );
    Ok(b)
}

// The k-th store of a write: its block's number, and its bytes at the start of the buffer, whose rest stays.
#[tactic(auto, using(tfs_steps::specs::Ready::long), unfolding(tfs_spec::specs::Requests::fetch, tfs_spec::specs::Requests::perform, tfs_spec::specs::Requests::write))]
pub fn fetch_write(
    image: &[u8],
    name: &[u8],
    offset: u32,
    bytes: &[u8],
    k: usize,
    buf: &mut [u8],
) -> Result<u32, Refusal>
    requires passed { check 512 image.now ≡ consistent }
    ensures answer { step_told value result ≡ (fetch 512 image.now (writes name.now offset bytes.now) k buf.old).answer }
    ensures buffer { buf.new ≡ (fetch 512 image.now (writes name.now offset bytes.now) k buf.old).buffer }
{
    let s = look_up(image, name)?;
    file_store(image, s, offset, bytes, k, buf)
}
