// From a buffer to the blocks of a file.
ghost use Rattle.std.specs.Prelude.{◌≡◌, ◌+◌, ◌/◌, ◌≤◌, ◌<◌, length, take};
ghost use Rattle.lists.specs.Lists.{store_bytes};
ghost use Rattle.tfs_spec.specs.Layout.{inode_number};
ghost use Rattle.tfs_runs.specs.Place.{at, Small, Inside, Numbered};

use crate::copy::copy_run;
use crate::run::{Run, number_at, run_of};
use tfs_inode::read::Inode;

// Writes one run, from position p of the file on, which lies in block b, of at most the bytes of src.
fn write_run(image: &mut [u8], ino: Inode<'_>, p: usize, b: usize, src: &[u8]) -> Run
    requires { Small ino.bytes.now (p + length src.now) × Inside ino.bytes.now (p + length src.now) (length image.old) × (0 < length src.now) × (p + length src.now ≤ 65024) × (b ≡ inode_number ino.bytes.now (p / 512)) }
    ensures { (0 < result.len) × (result.len ≤ length src.now) × (image.new ≡ store_bytes (at ino.entry.bytes.now) image.old p (take result.len src.now)) × Numbered ino.entry.bytes.now (p + result.len) (p + length src.now) result.next }
{
    let run = run_of(ino, p, b, src.len());
    let s = run.at;
    let n = run.len;
    let e = s + n;
    copy_run(&mut image[s..e], &src[0..n]);
    run
}

// Writes the first count bytes of buf, from position offset of the file on. ino is on a copy of the inode, as the image changes.
pub fn write_runs(image: &mut [u8], ino: Inode<'_>, offset: usize, buf: &[u8], count: usize)
    requires { Small ino.bytes.now (offset + count) × Inside ino.bytes.now (offset + count) (length image.old) × (count ≤ length buf.now) × (offset + count ≤ 65024) }
    ensures { image.new ≡ store_bytes (at ino.entry.bytes.now) image.old offset (take count buf.now) }
{
    let mut b = number_at(ino, offset, offset + count);
    let mut done = 0;
    // `while`, as each step goes on by the length of its run, which no range has.
    while done < count {
        let run = write_run(image, ino, offset + done, b, &buf[done..count]);
        b = run.next;
        done += run.len;
    }
}
