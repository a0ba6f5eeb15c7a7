// The directory in its place in the image.
ghost use Rattle.std.specs.Prelude.{◌≡◌, ◌<◌, ◌≤◌, length, IfSome};
ghost use Rattle.std.specs.Option.{unwrap_or};
ghost use Rattle.tfs_spec.specs.Layout.{view, inode, slot_of, free_slot};

use crate::find::Directory;

// The inode number in slot s.
#[tactic(auto, unfolding(tfs_spec::specs::Layout::inode))]
pub fn inode_at(image: &[u8], s: usize) -> u32
    requires { (1536 ≤ length image.now) × (s < 25) }
    ensures { result ≡ inode (view 512 image.now) s }
{
    Directory::of(image).slot(s).inode()
}

// The slot of a name.
pub fn slot_of(image: &[u8], name: &[u8]) -> Option<usize>
    requires { 1536 ≤ length image.now }
    ensures first { unwrap_or result 25 ≡ slot_of 512 (view 512 image.now) name.now }
    ensures below { IfSome result (λ s. s < 25) }
{
    Directory::of(image).find_name(name)
}

// The first free slot.
pub fn free_slot(image: &[u8]) -> Option<usize>
    requires { 1536 ≤ length image.now }
    ensures first { unwrap_or result 25 ≡ free_slot 512 (view 512 image.now) }
    ensures below { IfSome result (λ s. s < 25) }
{
    Directory::of(image).find_free()
}
