// The header of a volume.
ghost use Rattle.std.specs.Prelude.{◌≡◌, ◌≤◌, length};
ghost use Rattle.tfs_spec.specs.Layout.{view};
ghost use Rattle.tfs_spec.specs.Check.{bad_magic, bad_label};

use spans::search::first_zero;
use spans::words::be32;
use tfs_layout::{MAGIC, NAME, NAME_AT, head_of};

// Whether the magic number differs.
#[tactic(auto, unfolding(tfs_spec::specs::Check::bad_magic))]
pub fn magic_wrong(image: &[u8]) -> bool
    requires { 1536 ≤ length image.now }
    ensures { result ≡ bad_magic (view 512 image.now) }
{
    be32(head_of(image), 0) != MAGIC
}

// Whether the name of the volume has no zero byte.
#[tactic(auto, unfolding(lists::specs::Lists::part, tfs_spec::specs::Check::bad_label))]
pub fn label_wrong(image: &[u8]) -> bool
    requires { 1536 ≤ length image.now }
    ensures { result ≡ bad_label (view 512 image.now) }
{
    let head = head_of(image);
    NAME <= first_zero(&head[NAME_AT..NAME_AT + NAME])
}
