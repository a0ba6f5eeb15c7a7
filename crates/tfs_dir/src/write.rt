// Slots filled and cleared.
ghost use Rattle.std.specs.Prelude.{◌≡◌, ◌<◌, ◌≤◌, length, replicate};
ghost use Rattle.tfs_spec.specs.Layout.{set_slot, entry};

use spans::copy::zero;
use spans::words::put32;
use tfs_layout::{NAME_AT, SLOT};

// Makes the 20 bytes of a slot those of a file: its inode number, then its name and zeros.
pub fn fill_slot(slot: &mut [u8], inode: u32, name: &[u8])
    requires { (length slot.old ≡ 20) × (length name.now ≤ 15) }
    ensures { slot.new ≡ entry inode name.now }
{
    put32(slot, 0, inode);
    zero(&mut slot[NAME_AT..SLOT]);
    let e = NAME_AT + name.len();
    slot[NAME_AT..e].copy_from_slice(name);
}

// Enters a file in slot s.
pub fn put_slot(dir: &mut [u8], s: usize, inode: u32, name: &[u8])
    requires { (length dir.old ≡ 512) × (s < 25) × (length name.now ≤ 15) }
    ensures { dir.new ≡ set_slot dir.old s (entry inode name.now) }
{
    let a = s * SLOT;
    let e = a + SLOT;
    fill_slot(&mut dir[a..e], inode, name);
}

// Makes slot s free: 20 zeros.
pub fn clear_slot(dir: &mut [u8], s: usize)
    requires { (length dir.old ≡ 512) × (s < 25) }
    ensures { dir.new ≡ set_slot dir.old s (replicate 20 0) }
{
    let a = s * SLOT;
    zero(&mut dir[a..a + SLOT]);
}
