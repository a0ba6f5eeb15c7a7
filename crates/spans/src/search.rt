// Searches and tests of every byte.
ghost use Rattle.std.specs.Prelude.{◌≡◌, length};
ghost use Rattle.lists.specs.Lists.{zeros, same_list, first_zero};

// The index of the first zero byte, or the length: so the length of a name, as the rules have it, and no Option.
#[tactic(auto, using(list_laws::specs::Least::none_found), unfolding(lists::specs::Lists::zero_at, lists::specs::Lists::first_zero))]
pub fn first_zero(p: &[u8]) -> usize
    ensures { result ≡ first_zero p.now }
{
    for i in 0..p.len() {
        if p[i] == 0 {
            return i;
        }
    }
    p.len()
}

// Whether a and b have the same length and the same bytes.
pub fn same(a: &[u8], b: &[u8]) -> bool
    ensures { result ≡ same_list a.now b.now }
{
    a == b
}

// The same of spans of one length: no byte is left out, so that many are compared at a time.
fn same_all(a: &[u8], b: &[u8]) -> bool
    requires { length a.now ≡ length b.now }
    ensures { result ≡ same_list a.now b.now }
{
    let mut same = true;
    for i in 0..a.len() {
        if a[i] != b[i] {
            same = false;
        }
    }
    same
}

// The same of long spans, by 512 bytes: a count that the compiler knows (`a == b` is slower here).
pub fn same_long(a: &[u8], b: &[u8]) -> bool
    requires { length a.now ≡ length b.now }
    ensures { result ≡ same_list a.now b.now }
{
    let n = a.len();
    for k in 0..n / 512 {
        let s = 512 * k;
        let e = s + 512;
        if !same_all(&a[s..e], &b[s..e]) {
            return false;
        }
    }
    let s = n - n % 512;
    same_all(&a[s..n], &b[s..n])
}

// Whether every byte is zero; no byte is left out, so that many are tested at a time (`iter().all` stops at the first, and is slower by far).
#[tactic(auto, using(std::proofs::lemmas::List::Folds::list_all_more))]
pub fn all_zero(p: &[u8]) -> bool
    ensures { result ≡ same_list p.now (zeros (length p.now)) }
{
    let mut zero = true;
    for &b in p {
        if b != 0 {
            zero = false;
        }
    }
    zero
}
