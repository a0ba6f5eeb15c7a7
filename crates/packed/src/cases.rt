// A case: a request with its arguments, and the outcome that it is to have. host/generate/src/bin/pack.rs has the form.
ghost use Rattle.std.specs.Prelude.{◌≡◌, ◌≤◌, ◌&&◌, length, set, IfOk};
ghost use Rattle.packed.specs.Cases.{outcome, zeros, ReadsCase, ReadsValue, ReadsValues, ReadsOutcome, same_outcome, ComesOut};
ghost use Rattle.packed.specs.Runs.{Runs};
ghost use Rattle.packed.specs.Hash.{hash_on};
ghost use Rattle.reading.specs.Input.{EndOf};

use std::io::Read;
use std::{fmt, io};

// A request by its number in the packed form, with its arguments, whose bytes stand in what was lent for them.
#[derive(Drop)]
pub struct Case<'a> {
    pub request: u8,
    pub number: u32,
    pub name: &'a [u8],
    pub buf: &'a mut [u8],
    pub image: &'a mut [u8],
}

// What a request gave, as the packed form has it: a refusal with its place, or so many values.
#[derive(Clone, Copy, PartialEq)]
pub struct Outcome {
    pub refusal: u32,
    pub place: u32,
    pub count: u32,
    pub values: [u32; 6],
}

impl fmt::Display for Outcome {
    fn fmt<W: fmt::Write>(&self, f: &mut fmt::Formatter<W>) -> fmt::Result {
        let Outcome {
            refusal,
            place,
            count,
            values: [a, b, c, d, e, g],
        } = *self;
        write!(
            f,
            "refusal {refusal} at {place} and {count} values: {a}, {b}, {c}, {d}, {e}, {g}"
        )
    }
}

// ---- what a request gives

pub fn refused(refusal: u32, place: u32) -> Outcome
    ensures { result ≡ outcome refusal place 0 zeros }
{
    Outcome {
        refusal,
        place,
        count: 0,
        values: [0; 6],
    }
}

pub fn granted(count: u32, values: [u32; 6]) -> Outcome
    ensures { result ≡ outcome 0 0 count values }
{
    Outcome {
        refusal: 0,
        place: 0,
        count,
        values,
    }
}

// Granted, with nothing to tell.
pub fn done() -> Outcome
    ensures { result ≡ outcome 0 0 0 zeros }
{
    granted(0, [0; 6])
}

// Granted, with one number.
pub fn one(value: u32) -> Outcome
    ensures { result ≡ outcome 0 0 1 (set zeros 0 value) }
{
    granted(1, [value, 0, 0, 0, 0, 0])
}

// ---- what the input has

// The next case up to its request, into what is lent for its name, its buffer and its image.
pub fn next<'a, R: Read>(
    input: &mut R,
    name: &'a mut [u8],
    buf: &'a mut [u8],
    image: &'a mut [u8],
) -> io::Result<Case<'a>>
    ensures within { IfOk result (λ case. (length case.name.now ≤ length name.old) × (length case.buf.now ≤ length buf.old) × (length case.image.now ≤ length image.old)) }
    ensures lost { IfOk result (λ case. ReadsCase (R.remaining input.old) (R.remaining input.new) case.request case.number
        (length name.old) case.name.now (length buf.old) case.buf.now (length image.old) case.image.now) }
    ensures left { EndOf (R.remaining input.old) (R.remaining input.new) }
{
    let request = crate::byte(input)?;
    let number = crate::number(input)?;
    let name = crate::bytes(input, name)?;
    let buf = crate::bytes(input, buf)?;
    let image = crate::bytes(input, image)?;
    Ok(Case {
        request,
        number,
        name,
        buf,
        image,
    })
}

// Value number k of so many; 0 where there are fewer.
#[tactic(auto, using(reading::proofs::Ends::end_of_same))]
fn value<R: Read>(input: &mut R, k: u32, count: u32) -> io::Result<u32>
    ensures lost { IfOk result (λ v. ReadsValue (R.remaining input.old) (R.remaining input.new) k count v) }
    ensures left { EndOf (R.remaining input.old) (R.remaining input.new) }
{
    if k < count {
        return crate::number(input);
    }
    Ok(0)
}

// The six values of which there are so many.
fn values<R: Read>(input: &mut R, count: u32) -> io::Result<[u32; 6]>
    ensures lost { IfOk result (λ values. ReadsValues (R.remaining input.old) (R.remaining input.new) count 6 values) }
    ensures left { EndOf (R.remaining input.old) (R.remaining input.new) }
{
    let mut values = [0; 6];
    for k in 0..6u32 {
        values[k as usize] = value(input, k, count)?;
    }
    Ok(values)
}

// The outcome that the case is to have.
fn expected<R: Read>(input: &mut R) -> io::Result<Outcome>
    ensures lost { IfOk result (λ o. ReadsOutcome (R.remaining input.old) (R.remaining input.new) o) }
    ensures left { EndOf (R.remaining input.old) (R.remaining input.new) }
{
    let refusal = crate::number(input)?;
    let place = crate::number(input)?;
    let count = crate::number(input)?;
    let values = values(input, count)?;
    Ok(Outcome {
        refusal,
        place,
        count,
        values,
    })
}

// ---- the two held against each other

impl Case<'_> {
    // Whether outcome, text, and what is left are right. If not, a line says in which way case number k differs.
    fn judged(
        &self,
        rt: &impl Print,
        k: u32,
        want: Outcome,
        got: Outcome,
        told: bool,
        left: bool,
    ) -> io::Result<bool>
        ensures { IfOk result (λ right. right ≡ (same_outcome want got && told && left)) }
    {
        let request = self.request;
        if want != got {
            println!(rt; "case {k}, request {request}: expected {want}; got {got}")?;
            return Ok(false);
        }
        if !told {
            println!(rt; "case {k}: name or content differs")?;
            return Ok(false);
        }
        if !left {
            println!(rt; "case {k}: image or buffer differs")?;
        }
        Ok(left)
    }

    // Whether the case, number k, comes out as expected: what its request gave, its text (a name or a content), and what it left in
    // image and buffer. A line says what differs.
    pub fn comes_out<R: Read>(
        &self,
        rt: &impl Print,
        input: &mut R,
        k: u32,
        got: Outcome,
        text: &[u8],
    ) -> io::Result<bool>
        ensures right { IfOk result (λ right. ComesOut (R.remaining input.old) (R.remaining input.new) got text.now
            (hash_on (hash_on 14695981039346656037 self.now.image.now) self.now.buf.now) right) }
        ensures left { EndOf (R.remaining input.old) (R.remaining input.new) }
    {
        let want = expected(input)?;
        let mut room = [0u8; 4096];
        let content = crate::bytes(input, &mut room)?;
        let told = text == content;
        let left = crate::long_number(input)? == crate::hash_both(self.image, self.buf);
        self.judged(rt, k, want, got, told, left)
    }
}

// ---- many cases

// Runs so many cases, by their numbers from 1 on; how many come out otherwise than expected.
pub fn differing<F: FnMut(u32) -> io::Result<bool>>(count: u32, mut comes_out: F) -> io::Result<u32>
    requires { F.IsAlwaysCallable comes_out }
    ensures { IfOk result (λ differ. (last : F) × Runs F.step comes_out count last differ) }
{
    let mut differ = 0;
    for k in 0..count {
        if !comes_out(k + 1)? {
            differ += 1;
        }
    }
    Ok(differ)
}
