// A file erased.
ghost use Rattle.std.specs.Prelude.{◌≡◌, ◌≤◌, ◌<◌, length};
ghost use Rattle.tfs_spec.specs.Requests.{store_all};
ghost use Rattle.tfs_map.specs.Under.{Under};
ghost use Rattle.tfs_steps.specs.Erase.{erase_stores};

use crate::low::{mark, vacate};

// Makes slot s and the blocks free.
#[tactic(auto, using(crate::specs::Erase::erased))]
pub fn erase_file(image: &mut [u8], s: usize, blocks: &[u32])
    requires image { 1536 ≤ length image.old }
    requires slot { s < 25 }
    requires blocks { Under 4096 blocks.now }
    ensures { image.new ≡ store_all 512 image.old (erase_stores 512 image.old s blocks.now) }
{
    vacate(image, s);
    mark(image, blocks, false);
}
