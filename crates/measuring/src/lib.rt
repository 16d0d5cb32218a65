// The spans of one DLCI counted. Counting leaves two words for each piece, which writing reads: how many bytes its key holds
// after it, and where its first 3C stands.
#![tactic(auto)]

ghost use Rattle.std.specs.Prelude.{◌≡◌, ◌+◌, ◌-◌};
ghost use Rattle.split.specs.Rows.{capped_length, Laid};
ghost use Rattle.split.specs.Walks.{Row};
ghost use Rattle.measuring.specs.Counting.{sign, Noted, OpenPre, AddPre, added, Known, CountPre, CountHeld, JoinHeld, Behind, Stepped, CountIs};

use spans::{Scanned, Tally, count_part, first_end, scan};
use split::{Pieces, Plan, Table, join};
use words::put32;

// What is held of a rest of n bytes: over 65,536 it is cleared.
fn capped(n: usize) -> u32
    ensures { result ≡ capped_length n }
{
    if 65536 < n { 0 } else { n as u32 }
}

// Stores how much is held after piece i, and where its first 3C stands.
fn note(w: &mut [u8], p: Plan, i: usize, r: u32, e: u32)
    requires { Row w.old p i }
    ensures { Noted w.old p i r e w.new }
{
    put32(w, p.held + i, r);
    put32(w, p.ends + i, e);
}

// What is counted: the spans, how many buffers are not empty, the bytes of the pieces taken in, those cleared over the limit, and
// those left in buffers.
#[derive(Clone, Copy, Default)]
pub struct Sums {
    pub tally: Tally,
    pub unfinished: usize,
    pub taken: usize,
    pub cleared: usize,
    pub left: usize,
}

// How many buffers are not empty, if there were so many, and one held h bytes and now holds r.
fn count_open(many: usize, r: u32, h: usize) -> usize
    requires { OpenPre many r h }
    ensures { result ≡ many + sign r - sign h }
{
    let after = usize::from(0 < r);
    let before = usize::from(0 < h);
    many + after - before
}

// Whether closing what is held needs no look at it: nothing is held, or a span has unpacked.
fn is_known(h: usize, t: Tally) -> bool
    ensures { Known h t result }
{
    h == 0 || 0 < t.frames
}

// Counts the spans that piece i brings behind the h bytes held, which are put before it if a 3C closes them.
// Stays: file, w and p side by side, here and below. With w as a &mut in a struct (tried for note), each method has to promise too that the borrow
// and the plan stay: no plainer.
fn count_joined(file: &[u8], w: &mut [u8], p: Plan, i: usize, h: usize, t: Tally) -> Scanned
    requires { JoinHeld file.now w.old p i h t }
    ensures { Behind file.now w.old p i h t w.new result }
{
    let pieces = Pieces { file, w, plan: p };
    let e = first_end(pieces.piece(i));
    let m = pieces.length_of(i);
    if e == m {
        return Scanned {
            tally: t,
            end: e,
            rest: h + m,
        };
    }
    let n = join(file, w, p, i, h);
    let area = p.area;
    let end = area + n;
    let c = count_part(&w[area..end], t);
    Scanned {
        tally: c.tally,
        end: e,
        rest: c.rest,
    }
}

// Counts the spans that piece i brings behind the h bytes held.
fn count_behind(file: &[u8], w: &mut [u8], p: Plan, i: usize, h: usize, t: Tally) -> Scanned
    requires { CountHeld file.now w.old p i h t }
    ensures { Behind file.now w.old p i h t w.new result }
{
    if is_known(h, t) {
        let pieces = Pieces { file, w, plan: p };
        return scan(pieces.piece(i), h, t);
    }
    count_joined(file, w, p, i, h, t)
}

// The sums with a piece of m bytes more, whose spans are counted in t, and of whose rest of n bytes r are held where h were. Mostly
// nothing was held and nothing is left.
fn add_piece(s: Sums, t: Tally, m: usize, h: usize, n: usize, r: u32) -> Sums
    requires { AddPre s m h n r }
    ensures { result ≡ added s t m h n r }
{
    let taken = s.taken + m;
    if h + n == 0 {
        return Sums {
            tally: t,
            taken,
            ..s
        };
    }
    let held = r as usize;
    Sums {
        tally: t,
        unfinished: count_open(s.unfinished, r, h),
        taken,
        cleared: s.cleared + (n - held),
        left: s.left + held - h,
    }
}

// Counts the spans that piece i brings.
fn count_piece(file: &[u8], w: &mut [u8], p: Plan, i: usize, s: Sums) -> Sums
    requires { CountPre file.now w.old p i s }
    ensures { Stepped file.now w.old p i s w.new result }
{
    let pieces = Pieces { file, w, plan: p };
    let h = pieces.held_before(i);
    let m = pieces.length_of(i);
    let c = count_behind(file, w, p, i, h, s.tally);
    let r = capped(c.rest);
    note(w, p, i, r, c.end as u32);
    add_piece(s, c.tally, m, h, c.rest, r)
}

// Counts the spans of the DLCI, its buffers that are not empty at the end, and its bytes.
pub fn count_spans(file: &[u8], w: &mut [u8], p: Plan) -> Sums
    requires { Laid file.now w.old p }
    ensures { CountIs file.now w.old p w.new result }
{
    let n = p.n;
    let mut s = Sums::default();
    for i in 0..n {
        let table = Table { w, plan: p };
        if table.dlci_of(i) == p.dlci {
            s = count_piece(file, w, p, i, s);
        }
    }
    s
}
