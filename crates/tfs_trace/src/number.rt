// A number in groups of seven bits, low group first.
ghost use Rattle.std.specs.Prelude.{◌≡◌, ◌+◌, ◌^◌, ◌<◌, length, IfSome};
ghost use Rattle.tfs_spec.specs.Traces.{read_groups, read_number};
ghost use Rattle.tfs_facts.specs.Forward.{Forward};
ghost use Rattle.tfs_trace.specs.Told.{number_told};

// The number at a position, and the position behind it. Most take one byte, which is looked at here.
pub fn number_at(trace: &[u8], at: usize) -> Option<(u32, usize)>
    ensures value { number_told result ≡ read_number trace.now at }
    ensures onward { IfSome result (λ read. Forward trace.now at read.1) }
{
    if trace.len() <= at {
        return None;
    }
    let group = trace[at] as u32;
    if group < 128 {
        return Some((group, at + 1));
    }
    groups(&trace[at..], at, 5)
}

// The number of at most left groups at the head of the rest of a trace, which stands at a position. Each group hands on the part behind it: a slice
// handed on as it came is copied by a load of 16 bytes, which waits for the stores before it.
fn groups(rest: &[u8], at: usize, left: u32) -> Option<(u32, usize)>
    requires { at + length rest.now < 2 ^ 64 }
    ensures { number_told result ≡ read_groups left at rest.now }
{
    if left == 0 || rest.is_empty() {
        return None;
    }
    let group = rest[0] as u32;
    if group < 128 {
        return Some((group, at + 1));
    }
    let (high, next) = groups(&rest[1..], at + 1, left - 1)?;
    // The groups above are worth 1 or more in the shortest form, and below 2^25 in a number below 2^32.
    let shortest = 0 < high;
    let fits = high < 33554432;
    if !shortest || !fits {
        return None;
    }
    Some((high * 128 + (group - 128), next))
}
