// The search for a byte in a slice, by blocks: a block that has none is passed by without an early way out. Where there is none
// in the slice, the answer is its length.
// Stays: no Option: two of the uses (in spans) cut or count from the place, also where it is the length; the others ask whether it is, or hand
// it on. An Option would be turned back by unwrap_or in the first.
#![tactic(auto)]

ghost use Rattle.std.specs.Prelude.{◌≡◌, ◌≤◌, length, nat_eq};
ghost use Rattle.std.specs.List.{position};
ghost use Rattle.search.specs.Seek.{seek};
ghost use Rattle.search.specs.Steps.{Without, Passed, Sought};

// Whether no byte is x. There is no early way out, so that the loop runs on many bytes at once.
// Stays: blocks::is_bare::<X, X> is the same test, but blocks rests on mdr, of whose frames a search for a byte knows nothing, and find
// and find_soon would ask for x as a const of their callers. std's contains looks at 16 or 32 bytes by four runs of eight, and its fact would have
// to be made `Without` again.
fn is_without(s: &[u8], x: u8) -> bool
    ensures { Without s.now x result }
{
    let mut found = false;
    for &b in s {
        found |= b == x;
    }
    !found
}

// The place of the first x. From the end on, so that nothing is jumped over.
// Stays: here and below by blocks and by halves, and no position, which looks at one byte in a turn; find_few has it, for a few bytes.
fn place_of(s: &[u8], x: u8) -> usize
    ensures { result ≡ seek x s.now }
{
    let mut best = s.len();
    for i in (0..s.len()).rev() {
        if s[i] == x {
            best = i;
        }
    }
    best
}

// The place of the first x, byte by byte, if there is one.
fn first_place(s: &[u8], x: u8) -> Option<usize>
    ensures { result ≡ position (λ b. nat_eq b x) s.now }
{
    s.iter().position(|&b| b == x)
}

// The same; where there is none, the length.
pub fn find_few(s: &[u8], x: u8) -> usize
    ensures { result ≡ seek x s.now }
{
    first_place(s, x).unwrap_or(s.len())
}

// The place of the first x in 32 bytes or fewer: in the first sixteen, or else in the last.
fn find_short(s: &[u8], x: u8) -> usize
    requires { length s.now ≤ 32 }
    ensures { result ≡ seek x s.now }
{
    let n = s.len();
    if n < 16 {
        return find_few(s, x);
    }
    let at = if is_without(&s[..16], x) { n - 16 } else { 0 };
    let half = &s[at..at + 16];
    if is_without(half, x) {
        return n;
    }
    at + place_of(half, x)
}

// Passes by blocks of 32 bytes with no x, up to one that has it or the last 32, which may have been seen in part.
fn pass_blocks(s: &[u8], x: u8) -> usize
    ensures { Passed s.now x result }
{
    let last = s.len().saturating_sub(32);
    for i in (0..last).step_by(32) {
        if !is_without(&s[i..i + 32], x) {
            return i;
        }
    }
    last
}

// The place of the first x.
pub fn find(s: &[u8], x: u8) -> usize
    ensures { Sought s.now x result }
{
    let at = pass_blocks(s, x);
    let end = s.len().min(at + 32);
    at + find_short(&s[at..end], x)
}

// The same, for a byte that mostly stands soon: so many bytes are looked at one by one before the rest.
pub fn find_soon<const FEW: usize>(s: &[u8], x: u8) -> usize
    ensures { Sought s.now x result }
{
    if s.len() < FEW {
        return find_few(s, x);
    }
    let at = find_few(&s[..FEW], x);
    if at < FEW {
        return at;
    }
    FEW + find(&s[FEW..], x)
}
