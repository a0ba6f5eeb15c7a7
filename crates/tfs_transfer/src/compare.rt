// What a read would give, compared with given bytes on a consistent volume. Nothing is copied.
ghost use Rattle.std.specs.Prelude.{◌≡◌, ◌&&◌};
ghost use Rattle.lists.specs.Lists.{same_list, zeros};
ghost use Rattle.tfs_spec.specs.Layout.{view};
ghost use Rattle.tfs_spec.specs.Check.{consistent, check};
ghost use Rattle.tfs_spec.specs.Consistent.{File};
ghost use Rattle.tfs_spec.specs.Requests.{granted, refusal_of, read_file, read_step};
ghost use Rattle.tfs_spec.specs.Replays.{read_bytes};
ghost use Rattle.tfs_transfer.specs.Compare.{compared_refusal, compared_same};

use crate::reach_of;
use tfs_dir::lookup::look_up;
use tfs_inode::read::Inode;
use tfs_refusal::Refusal;
use tfs_runs::same::same_runs;

// Whether the bytes are those that a read from the offset on of the file in slot s puts into a buffer of len bytes.
#[tactic(auto, using(crate::specs::Compare::compare_lengths))]
fn compare_file(
    image: &[u8],
    s: usize,
    offset: u32,
    len: u32,
    bytes: &[u8],
) -> Result<bool, Refusal>
    requires passed { check 512 image.now ≡ consistent }
    requires file { File 512 (view 512 image.now) s }
    ensures refusal { compared_refusal result ≡ refusal_of (read_file 512 image.now s offset (zeros len)).answer }
    ensures same { compared_same result ≡ (granted (read_file 512 image.now s offset (zeros len)).answer && same_list bytes.now (read_bytes (read_file 512 image.now s offset (zeros len)))) }
{
    let reach = reach_of(image, s, offset, len as usize)?;
    Ok(
        bytes.len() == reach.count
            && same_runs(
                image,
                Inode::in_block(image, reach.inode),
                offset as usize,
                bytes,
            ),
    )
}

// The same of the file of this name, or the lookup's refusal.
#[tactic(auto, using(tfs_steps::specs::Ready::long))]
pub fn compare_step(
    image: &[u8],
    name: &[u8],
    offset: u32,
    len: u32,
    bytes: &[u8],
) -> Result<bool, Refusal>
    requires passed { check 512 image.now ≡ consistent }
    ensures refusal { compared_refusal result ≡ refusal_of (read_step 512 image.now name.now offset (zeros len)).answer }
    ensures same { compared_same result ≡ (granted (read_step 512 image.now name.now offset (zeros len)).answer && same_list bytes.now (read_bytes (read_step 512 image.now name.now offset (zeros len)))) }
{
    let s = look_up(image, name)?;
    compare_file(image, s, offset, len, bytes)
}
