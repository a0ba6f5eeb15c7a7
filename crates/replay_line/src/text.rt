// Numbers as a line of text: in decimal, a space between two, a newline behind the last.
ghost use Rattle.std.specs.Prelude.{◌≡◌, [], ◌∷◌, ◌++◌, ◌+◌, ◌≤◌, ◌<◌, length};
ghost use Rattle.tfs_spec.specs.Replays.{decimal, line_bytes};

use arrayvec::ArrayString;
use itoa::Buffer;

// A line of at most three numbers, each with at most 20 digits and a byte behind it.
pub type Line = ArrayString<64>;

// Puts a number and the ASCII character that ends it behind what stands.
fn put_number(line: &mut Line, n: usize, end: char)
    requires room { length line.old.bytes + 21 ≤ 64 }
    requires ascii { end < 128 }
    ensures bytes { line.new.bytes ≡ line.old.bytes ++ (decimal 20 n ++ (end ∷ [])) }
    ensures length { length line.new.bytes ≤ length line.old.bytes + 21 }
{
    let mut digits = Buffer::new();
    line.push_str(digits.format(n));
    line.push(end);
}

pub fn line_of_one(a: usize) -> Line
    ensures { result.bytes ≡ line_bytes (a ∷ []) }
{
    let mut line = ArrayString::new();
    put_number(&mut line, a, '\n');
    line
}

pub fn line_of_two(a: usize, b: usize) -> Line
    ensures { result.bytes ≡ line_bytes (a ∷ b ∷ []) }
{
    let mut line = ArrayString::new();
    put_number(&mut line, a, ' ');
    put_number(&mut line, b, '\n');
    line
}

pub fn line_of_three(a: usize, b: u32, c: u32) -> Line
    ensures { result.bytes ≡ line_bytes (a ∷ b ∷ c ∷ []) }
{
    let mut line = ArrayString::new();
    put_number(&mut line, a, ' ');
    put_number(&mut line, b as usize, ' ');
    put_number(&mut line, c as usize, '\n');
    line
}
