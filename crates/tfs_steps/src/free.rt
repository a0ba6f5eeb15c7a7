// Free bytes on a consistent volume.
ghost use Rattle.std.specs.Prelude.{◌≡◌};
ghost use Rattle.tfs_spec.specs.Check.{consistent, check};
ghost use Rattle.tfs_spec.specs.Requests.{value, free_step};

use tfs_layout::BLOCK;
use tfs_map::volume::free_blocks;

// The bytes of all free blocks.
#[tactic(auto, using(crate::specs::Ready::long))]
pub fn free_step(image: &[u8]) -> u32
    requires { check 512 image.now ≡ consistent }
    ensures { value result ≡ free_step 512 image.now }
{
    (BLOCK * free_blocks(image)) as u32
}
