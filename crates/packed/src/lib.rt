// Packed test cases, read from an input. A number is four bytes and a long number eight, the most significant first;
// bytes stand behind their count. Each contract says which bytes the reader lost and what is made of them; where a read failed,
// that what is left is the end of what there was.
#![tactic(auto)]

ghost use Rattle.std.specs.Prelude.{◌≡◌, ◌≤◌, length, IfOk, OnOk};
ghost use Rattle.packed.specs.Hash.{times, hash_on};
ghost use Rattle.packed.specs.Input.{ReadsPadded, ReadsByte, ReadsNumber, ReadsLong, ReadsBytes};
ghost use Rattle.reading.specs.Input.{EndOf};

use reading::fill;
use std::io;
use std::io::Read;

pub mod cases;

// Fills a buffer. Bytes that the input lacks are zeros.
fn fill_padded<R: Read>(input: &mut R, buf: &mut [u8]) -> io::Result<()>
    ensures lost { OnOk result (ReadsPadded (R.remaining input.old) (R.remaining input.new) (length buf.old) buf.new) }
    ensures left { EndOf (R.remaining input.old) (R.remaining input.new) }
{
    let n = fill(input, buf)?;
    buf[n..].fill(0);
    Ok(())
}

// So many bytes.
fn padded<R: Read, const N: usize>(input: &mut R) -> io::Result<[u8; N]>
    ensures lost { IfOk result (λ word. ReadsPadded (R.remaining input.old) (R.remaining input.new) N word) }
    ensures left { EndOf (R.remaining input.old) (R.remaining input.new) }
{
    let mut word = [0; N];
    fill_padded(input, &mut word)?;
    Ok(word)
}

// A single byte; 0 where the input has ended.
pub fn byte<R: Read>(input: &mut R) -> io::Result<u8>
    ensures lost { IfOk result (λ b. ReadsByte (R.remaining input.old) (R.remaining input.new) b) }
    ensures left { EndOf (R.remaining input.old) (R.remaining input.new) }
{
    Ok(u8::from_be_bytes(padded(input)?))
}

// A number. Bytes that the input lacks count as 0.
pub fn number<R: Read>(input: &mut R) -> io::Result<u32>
    ensures lost { IfOk result (λ n. ReadsNumber (R.remaining input.old) (R.remaining input.new) n) }
    ensures left { EndOf (R.remaining input.old) (R.remaining input.new) }
{
    Ok(u32::from_be_bytes(padded(input)?))
}

pub fn long_number<R: Read>(input: &mut R) -> io::Result<u64>
    ensures lost { IfOk result (λ n. ReadsLong (R.remaining input.old) (R.remaining input.new) n) }
    ensures left { EndOf (R.remaining input.old) (R.remaining input.new) }
{
    Ok(u64::from_be_bytes(padded(input)?))
}

// Bytes, put at the start of a room that is lent; those that it does not hold are left in the input.
pub fn bytes<'a, R: Read>(input: &mut R, room: &'a mut [u8]) -> io::Result<&'a mut [u8]>
    ensures within { IfOk result (λ part. length part.now ≤ length room.old) }
    ensures lost { IfOk result (λ part. ReadsBytes (R.remaining input.old) (R.remaining input.new) (length room.old) part.now) }
    ensures left { EndOf (R.remaining input.old) (R.remaining input.new) }
{
    let n = number(input)? as usize;
    let most = n.min(room.len());
    let filled = fill(input, &mut room[..most])?;
    Ok(&mut room[..filled])
}

// The prime of the 64-bit FNV-1a hash.
const PRIME: u64 = 1099511628211;

// The 64-bit FNV-1a hash of more bytes behind those that have this hash.
#[tactic(auto, using(crate::proofs::Hashes::hash_steps), unfolding(crate::specs::Hash::times, crate::specs::Hash::hash_step))]
pub fn hash_on(hash: u64, s: &[u8]) -> u64
    ensures { result ≡ hash_on hash s.now }
{
    let mut h = hash;
    for &b in s {
        h = (h ^ u64::from(b)).wrapping_mul(PRIME);
    }
    h
}

// The hash of image and buffer, one behind the other.
pub fn hash_both(image: &[u8], buf: &[u8]) -> u64
    ensures { result ≡ hash_on (hash_on 14695981039346656037 image.now) buf.now }
{
    hash_on(hash_on(14695981039346656037, image), buf)
}
