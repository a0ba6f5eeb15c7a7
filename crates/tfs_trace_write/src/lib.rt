// Writes a record of a trace into a lent buffer.
#![tactic(auto)]

ghost use Rattle.std.specs.Prelude.{◌≡◌, true, ◌+◌, ◌%◌, ◌≤◌, ◌<◌, length};
ghost use Rattle.tfs_spec.specs.Traces.{groups, number, string, write_record};
ghost use Rattle.tfs_trace_write.specs.Drafts.{draft_told, written_told};
ghost use Rattle.tfs_trace_write.specs.Puts.{put};
ghost use Rattle.tfs_trace_write.specs.Halves.{call_half, result_field, expected_half, field_number, half_fits, field_size, half_size, field_bytes, half_bytes};

use spans::copy::copy;

// Numbers are below this.
const LIMIT: u64 = 4294967296;

// The kind of a record to be written, with the numbers of its request. A name and bytes go beside it.
#[derive(Clone, Copy)]
pub enum Draft {
    Create { size: u64 },
    Remove,
    // with the buffer's length
    Read { offset: u64, len: u64 },
    Write { offset: u64 },
    Free,
}

// A record that is not written: it is too long for the buffer, or has a number too large.
#[derive(Clone, Copy, Debug, PartialEq, Eq)]
pub struct TooLarge;

impl TooLarge {
    // The number of the refusal.
    pub fn number(self) -> u32
        ensures { result ≡ 33 }
    {
        33
    }
}

// A part of a record: nothing, a number, or the name or the bytes with their length before them.
#[derive(Clone, Copy)]
enum Field {
    Nothing,
    Number(u64),
    Name,
    Bytes,
}

// A half of a record, what was asked or what was answered: the kind or the refusal, then up to three fields.
#[derive(Clone, Copy)]
struct Half {
    head: u64,
    first: Field,
    second: Field,
    third: Field,
}

// ---- what a record has
// The half that says what was asked.
fn call_half(draft: Draft) -> Half
    ensures { result ≡ call_half draft }
{
    let (head, first, second, third) = match draft {
        Draft::Create { size } => (1, Field::Name, Field::Number(size), Field::Nothing),
        Draft::Remove => (2, Field::Name, Field::Nothing, Field::Nothing),
        Draft::Read { offset, len } => (3, Field::Name, Field::Number(offset), Field::Number(len)),
        Draft::Write { offset } => (4, Field::Name, Field::Number(offset), Field::Bytes),
        Draft::Free => (5, Field::Nothing, Field::Nothing, Field::Nothing),
    };
    Half {
        head,
        first,
        second,
        third,
    }
}

// The result of a granted request; beside a refusal there is none.
fn result(draft: Draft, refusal: u64, value: u64) -> Field
    ensures { result ≡ result_field draft refusal value }
{
    if refusal != 0 {
        return Field::Nothing;
    }
    match draft {
        Draft::Create { .. } => Field::Nothing,
        Draft::Remove => Field::Nothing,
        Draft::Read { .. } => Field::Bytes,
        Draft::Write { .. } => Field::Number(value),
        Draft::Free => Field::Number(value),
    }
}

// The half that says what was answered.
fn expected_half(draft: Draft, refusal: u64, value: u64) -> Half
    ensures { result ≡ expected_half draft refusal value }
{
    let first = result(draft, refusal, value);
    Half {
        head: refusal,
        first,
        second: Field::Nothing,
        third: Field::Nothing,
    }
}

// ---- how long it is
// The number that a field begins with.
fn field_number(field: Field, name: usize, bytes: usize) -> u64
    ensures { result ≡ field_number field name bytes }
{
    match field {
        Field::Nothing => 0,
        Field::Number(n) => n,
        Field::Name => name as u64,
        Field::Bytes => bytes as u64,
    }
}

// Whether the numbers of a half are small enough, for a name and bytes of these lengths.
fn half_fits(half: Half, name: usize, bytes: usize) -> bool
    ensures { result ≡ half_fits half name bytes }
{
    half.head < LIMIT
        && field_number(half.first, name, bytes) < LIMIT
        && field_number(half.second, name, bytes) < LIMIT
        && field_number(half.third, name, bytes) < LIMIT
}

// How many groups a number has, of at most left.
#[tactic(auto, using(crate::specs::Puts::groups_none, crate::specs::Puts::groups_last, crate::specs::Puts::groups_more))]
fn groups_size(n: u64, left: u32) -> usize
    ensures size { result ≡ length (groups left n) }
    ensures most { result ≤ left }
{
    if left == 0 {
        return 0;
    }
    if n < 128 {
        return 1;
    }
    groups_size(n / 128, left - 1) + 1
}

fn string_size(len: usize) -> usize
    requires { len < 4294967296 }
    ensures size { result ≡ length (number len) + len }
    ensures most { result < 4294967302 }
{
    groups_size(len as u64, 5) + len
}

fn field_size(field: Field, name: usize, bytes: usize) -> usize
    requires { field_number field name bytes < 4294967296 }
    ensures size { result ≡ field_size field name bytes }
    ensures most { result < 4294967302 }
{
    match field {
        Field::Nothing => 0,
        Field::Number(n) => groups_size(n, 5),
        Field::Name => string_size(name),
        Field::Bytes => string_size(bytes),
    }
}

fn half_size(half: Half, name: usize, bytes: usize) -> usize
    requires { half_fits half name bytes ≡ true }
    ensures size { result ≡ half_size half name bytes }
    ensures most { result < 17179869184 }
{
    groups_size(half.head, 5)
        + field_size(half.first, name, bytes)
        + field_size(half.second, name, bytes)
        + field_size(half.third, name, bytes)
}

// ---- its bytes. Each put gives the position behind what it wrote.
// A group of seven bits: the lowest of n, with the high bit or 0 added.
fn group(n: u64, high: u8) -> u8
    requires { high ≤ 128 }
    ensures { result ≡ n % 128 + high }
{
    (n % 128) as u8 + high
}

// Writes a number in at most left groups, low group first.
#[tactic(auto, using(crate::specs::Puts::groups_none, crate::specs::Puts::groups_last, crate::specs::Puts::groups_more, crate::specs::Puts::put_none, crate::specs::Puts::put_last, crate::specs::Puts::put_more, std::proofs::lemmas::Grind::common_steps))]
fn put_groups(out: &mut [u8], at: usize, n: u64, left: u32) -> usize
    requires { at + length (groups left n) ≤ length out.old }
    ensures end { result ≡ at + length (groups left n) }
    ensures put { out.new ≡ put at (groups left n) out.old }
{
    if left == 0 {
        return at;
    }
    if n < 128 {
        out[at] = group(n, 0);
        return at + 1;
    }
    out[at] = group(n, 128);
    put_groups(out, at + 1, n / 128, left - 1)
}

// Writes the length of bytes, then the bytes.
fn put_string(out: &mut [u8], at: usize, bytes: &[u8]) -> usize
    requires { at + (length (number (length bytes.now)) + length bytes.now) ≤ length out.old }
    ensures end { result ≡ at + (length (number (length bytes.now)) + length bytes.now) }
    ensures put { out.new ≡ put at (string bytes.now) out.old }
{
    let from = put_groups(out, at, bytes.len() as u64, 5);
    let end = from + bytes.len();
    copy(&mut out[from..end], bytes);
    end
}

#[tactic(auto, using(crate::specs::Puts::put_none))]
fn put_field(out: &mut [u8], at: usize, field: Field, name: &[u8], bytes: &[u8]) -> usize
    requires { at + field_size field (length name.now) (length bytes.now) ≤ length out.old }
    ensures end { result ≡ at + field_size field (length name.now) (length bytes.now) }
    ensures put { out.new ≡ put at (field_bytes field name.now bytes.now) out.old }
{
    match field {
        Field::Nothing => at,
        Field::Number(n) => put_groups(out, at, n, 5),
        Field::Name => put_string(out, at, name),
        Field::Bytes => put_string(out, at, bytes),
    }
}

fn put_half(out: &mut [u8], at: usize, half: Half, name: &[u8], bytes: &[u8])
    requires { at + half_size half (length name.now) (length bytes.now) ≤ length out.old }
    ensures { out.new ≡ put at (half_bytes half name.now bytes.now) out.old }
{
    let a = put_groups(out, at, half.head, 5);
    let b = put_field(out, a, half.first, name, bytes);
    let c = put_field(out, b, half.second, name, bytes);
    put_field(out, c, half.third, name, bytes);
}

// Writes a record to the start of the buffer, whose rest stays, and gives its length: what was asked, the refusal (0 for granted) and, if granted, the result. The bytes are those that a write writes or that a read gave; the value is the count of a write, or free bytes. What the record does not have is ignored. Where it is too large, nothing is written.
pub fn write_record(
    out: &mut [u8],
    draft: Draft,
    name: &[u8],
    bytes: &[u8],
    refusal: u64,
    value: u64,
) -> Result<usize, TooLarge>
    ensures answer { written_told result ≡ (write_record out.old (draft_told draft name.now bytes.now refusal value)).answer }
    ensures buffer { out.new ≡ (write_record out.old (draft_told draft name.now bytes.now refusal value)).buffer }
{
    let call = call_half(draft);
    let expected = expected_half(draft, refusal, value);
    if !half_fits(call, name.len(), bytes.len()) || !half_fits(expected, name.len(), bytes.len()) {
        return Err(TooLarge);
    }
    let at = half_size(call, name.len(), bytes.len());
    let end = at + half_size(expected, name.len(), bytes.len());
    if out.len() < end {
        return Err(TooLarge);
    }
    put_half(out, 0, call, name, bytes);
    put_half(out, at, expected, name, bytes);
    Ok(end)
}
