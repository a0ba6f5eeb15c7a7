// Whole blocks made zero.
ghost use Rattle.std.specs.Prelude.{◌≡◌, ◌+◌, ◌*◌, ◌≤◌, ◌<◌, length};
ghost use Rattle.lists.specs.Lists.{zeros, with_part};
ghost use Rattle.tfs_spec.specs.Requests.{store_all, zero_stores};
ghost use Rattle.tfs_runs.specs.Blank.{AllInside, Neighbours};

use tfs_layout::BLOCK;

// How many listed blocks, from place i of the list on, stand one after another in the image.
fn neighbours(blocks: &[u32], i: usize) -> usize
    requires { i < length blocks.now }
    ensures { (0 < result) × (i + result ≤ length blocks.now) × Neighbours blocks.now i result }
{
    let first = blocks[i] as usize;
    let most = blocks.len() - i;
    for n in 1..most {
        if blocks[i + n] as usize != first + n {
            return n;
        }
    }
    most
}

// Makes n blocks zero, from block b on.
fn zero_span(image: &mut [u8], b: usize, n: usize)
    requires { (b + n) * 512 ≤ length image.old }
    ensures { image.new ≡ with_part (b * 512) (n * 512) (zeros (n * 512)) image.old }
{
    let s = b * BLOCK;
    let e = s + n * BLOCK;
    spans::copy::zero(&mut image[s..e]);
}

// Makes every listed block zero, in order; neighbours in one fill.
pub fn zero_blocks(image: &mut [u8], blocks: &[u32])
    requires { AllInside blocks.now (length image.old) }
    ensures { image.new ≡ store_all 512 image.old (zero_stores 512 blocks.now) }
{
    let mut i = 0;
    // `while`, as each step goes on by as many blocks as are neighbours, which no range has.
    while i < blocks.len() {
        let b = blocks[i] as usize;
        let n = neighbours(blocks, i);
        zero_span(image, b, n);
        i += n;
    }
}
