// The blocks of a file, listed.
ghost use Rattle.std.specs.Prelude.{◌≡◌, ◌+◌, ◌≤◌, ◌++◌, drop};
ghost use Rattle.tfs_spec.specs.Layout.{need, inode_size};
ghost use Rattle.tfs_inode.specs.Claims.{claim_list};

use crate::read::{Inode, blocks_needed};
use tfs_layout::FILE_BLOCKS;

impl Inode<'_> {
    // The inode's own block and its first numbers, as many as its size asks for, to the front of out, which has room for those of any file; and
    // how many they are.
    pub fn blocks(self, own: u32, out: &mut [u32; FILE_BLOCKS]) -> usize
        requires { need 512 (inode_size self.bytes.now) ≤ 127 }
        ensures { (result ≡ 1 + need 512 (inode_size self.entry.bytes.now)) × (out.new ≡ claim_list own self.entry.bytes.now ++ drop (1 + need 512 (inode_size self.entry.bytes.now)) out.old) }
    {
        let count = blocks_needed(self.size());
        out[0] = own;
        for k in 0..count {
            out[1 + k] = self.number(k);
        }
        1 + count
    }
}
