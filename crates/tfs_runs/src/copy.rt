// Spans copied with no call of the C library for short ones: libtiming_c.a, which copies a block at most, needs memset alone of the program that
// links it. The library's copy_from_slice is a call of memmove.
ghost use Rattle.std.specs.Prelude.{◌≡◌, length};

use tfs_layout::BLOCK;

// The least length that is worth a call.
const LONG: usize = 128;

// Copies src into dst, byte by byte. Not inlined, here and below: in a caller that sees that dst and src lie apart, the compiler makes a call of
// memcpy of the loop.
#[inline(never)]
pub fn copy(dst: &mut [u8], src: &[u8])
    requires { length dst.old ≡ length src.now }
    ensures { dst.new ≡ src.now }
{
    for i in 0..dst.len() {
        dst[i] = src[i];
    }
}

// The same of a block, by a count that the compiler knows.
#[inline(never)]
pub fn copy_block(dst: &mut [u8], src: &[u8])
    requires { (length dst.old ≡ 512) × (length src.now ≡ 512) }
    ensures { dst.new ≡ src.now }
{
    for i in 0..BLOCK {
        dst[i] = src[i];
    }
}

// Copies src into dst, a long one by one move of memory.
pub fn copy_run(dst: &mut [u8], src: &[u8])
    requires { length dst.old ≡ length src.now }
    ensures { dst.new ≡ src.now }
{
    if dst.len() < LONG {
        copy(dst, src);
        return;
    }
    dst.copy_from_slice(src);
}
