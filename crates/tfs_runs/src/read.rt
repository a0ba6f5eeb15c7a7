// From the blocks of a file to a buffer.
ghost use Rattle.std.specs.Prelude.{◌≡◌, ◌++◌, ◌+◌, ◌/◌, ◌≤◌, ◌<◌, length, get_or, drop};
ghost use Rattle.lists.specs.Lists.{table};
ghost use Rattle.tfs_spec.specs.Layout.{inode_number};
ghost use Rattle.tfs_runs.specs.Place.{at, Small, Inside, Numbered};

use crate::copy::copy_run;
use crate::run::{Run, number_at, run_of};
use tfs_inode::read::Inode;

// Reads one run, from position p of the file on, which lies in block b, of at most left bytes.
fn read_run(image: &[u8], ino: Inode<'_>, p: usize, b: usize, buf: &mut [u8], left: usize) -> Run
    requires { Small ino.bytes.now (p + left) × Inside ino.bytes.now (p + left) (length image.now) × (0 < left) × (left ≤ length buf.old) × (p + left ≤ 65024) × (b ≡ inode_number ino.bytes.now (p / 512)) }
    ensures { (0 < result.len) × (result.len ≤ left) × (buf.new ≡ table (λ q. get_or image.now (at ino.entry.bytes.now q) 0) p result.len ++ drop result.len buf.old) × Numbered ino.entry.bytes.now (p + result.len) (p + left) result.next }
{
    let run = run_of(ino, p, b, left);
    let s = run.at;
    let n = run.len;
    let e = s + n;
    copy_run(&mut buf[0..n], &image[s..e]);
    run
}

// Reads count bytes, from position offset of the file on.
pub fn read_runs(image: &[u8], ino: Inode<'_>, offset: usize, buf: &mut [u8], count: usize)
    requires { Small ino.bytes.now (offset + count) × Inside ino.bytes.now (offset + count) (length image.now) × (count ≤ length buf.old) × (offset + count ≤ 65024) }
    ensures { buf.new ≡ table (λ p. get_or image.now (at ino.entry.bytes.now p) 0) offset count ++ drop count buf.old }
{
    let mut b = number_at(ino, offset, offset + count);
    let mut done = 0;
    // `while`, as each step goes on by the length of its run, which no range has.
    while done < count {
        let end = buf.len();
        let run = read_run(
            image,
            ino,
            offset + done,
            b,
            &mut buf[done..end],
            count - done,
        );
        b = run.next;
        done += run.len;
    }
}
