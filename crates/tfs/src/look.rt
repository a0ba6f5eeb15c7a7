// List on a consistent volume.
ghost use Rattle.std.specs.Prelude.{◌≡◌};
ghost use Rattle.tfs_refusal.specs.Told.{step_told};
ghost use Rattle.tfs_spec.specs.Check.{consistent, check};
ghost use Rattle.tfs_spec.specs.Requests.{list_step};
ghost use Rattle.tfs.specs.Told.{entry_told};

use crate::entry::{Entry, Name};
use tfs_dir::find::Directory;
use tfs_inode::volume::file_size;
use tfs_layout::SLOTS;
use tfs_refusal::Refusal;

// What stands in a slot.
#[tactic(auto, using(std::proofs::lemmas::Grind::common_steps, tfs_steps::specs::Ready::long, crate::specs::List::list_past, crate::specs::List::list_free, crate::specs::List::list_inside, crate::specs::List::list_named, crate::specs::List::list_file, crate::specs::List::name_back))]
pub fn list_step(image: &[u8], slot: u32) -> Result<Option<Entry>, Refusal>
    requires { check 512 image.now ≡ consistent }
    ensures { step_told entry_told result ≡ list_step 512 image.now slot }
{
    let s = slot as usize;
    if SLOTS <= s {
        return Err(Refusal::NoSuchSlot);
    }
    let slot = Directory::of(image).slot(s);
    if slot.is_free() {
        return Ok(None);
    }
    let inode = slot.inode();
    let size = file_size(image, inode as usize);
    let len = slot.name_length();
    let name = Name::new(slot.padded_name(), len);
    Ok(Some(Entry { name, inode, size }))
}
