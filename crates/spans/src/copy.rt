// Fills and copies of a whole span.
ghost use Rattle.std.specs.Prelude.{◌≡◌, length, replicate};

// Makes every byte zero: std's fill, with its result as one equation.
pub fn zero(p: &mut [u8])
    ensures { p.new ≡ replicate (length p.old) 0 }
{
    p.fill(0);
}

// Copies src into dst.
pub fn copy(dst: &mut [u8], src: &[u8])
    requires { length dst.old ≡ length src.now }
    ensures { dst.new ≡ src.now }
{
    dst.copy_from_slice(src);
}
