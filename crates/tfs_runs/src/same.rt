// The blocks of a file compared with given bytes.
ghost use Rattle.std.specs.Prelude.{◌≡◌, ◌+◌, ◌≤◌, length, get_or};
ghost use Rattle.lists.specs.Lists.{same_list, table};
ghost use Rattle.tfs_runs.specs.Place.{at, Small, Inside};

use crate::run::{number_at, run_of};
use spans::search::same_long;
use tfs_inode::read::Inode;

// Whether the bytes are those from position offset of the file on, in place: nothing is copied.
pub fn same_runs(image: &[u8], ino: Inode<'_>, offset: usize, bytes: &[u8]) -> bool
    requires { Small ino.bytes.now (offset + length bytes.now) × Inside ino.bytes.now (offset + length bytes.now) (length image.now) × (offset + length bytes.now ≤ 65024) }
    ensures { result ≡ same_list bytes.now (table (λ p. get_or image.now (at ino.entry.bytes.now p) 0) offset (length bytes.now)) }
{
    let len = bytes.len();
    let mut b = number_at(ino, offset, offset + len);
    let mut done = 0;
    // `while`, as each step goes on by the length of its run, which no range has.
    while done < len {
        let run = run_of(ino, offset + done, b, len - done);
        let s = run.at;
        let n = run.len;
        let e = s + n;
        let end = done + n;
        if !same_long(&bytes[done..end], &image[s..e]) {
            return false;
        }
        b = run.next;
        done = end;
    }
    true
}
