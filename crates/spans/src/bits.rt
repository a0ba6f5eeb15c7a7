// One bit of a byte.
ghost use Rattle.std.specs.Prelude.{◌≡◌, ◌<◌, cond};
ghost use Rattle.lists.specs.Lists.{bit_of, with_bit};

// Bit k of x.
pub fn bit_of(x: u8, k: u32) -> u8
    requires { k < 8 }
    ensures { (result ≡ bit_of x k) × (result < 2) }
{
    (x >> k) % 2
}

// x with bit k one, or zero.
#[tactic(auto, using(crate::specs::Masks::or_one, crate::specs::Masks::and_zero))]
pub fn with_bit(x: u8, k: u32, one: bool) -> u8
    requires { k < 8 }
    ensures { result ≡ with_bit x k (cond one 1 0) }
{
    if one { x | (1 << k) } else { x & !(1 << k) }
}

// x with bit k one.
pub fn with_one(x: u8, k: u32) -> u8
    requires { k < 8 }
    ensures { result ≡ with_bit x k 1 }
{
    with_bit(x, k, true)
}
