// The stretches that are open at the end of a trace, each with its counts: listed in work, and put into a lent list.
#![tactic(auto)]

ghost use Rattle.std.specs.Prelude.{◌≡◌, ◌+◌, ◌*◌, ◌<◌, ◌≤◌, length};
ghost use Rattle.words.specs.Rows.{put_words};
ghost use Rattle.stretches.specs.Filled.{stretch_at, filled};
ghost use Rattle.stretches.specs.Listing.{PieceIn, Handed, SpreadPre, Spread, is_open, row_stretch, words_of, AddPre, Added, SpreadListed, OpenListed};

use split::{Plan, Table};
use words::{get32, put32};

// A stretch and direction with bytes held: 2 * link + direction, where a link is 4096 times the adapter's index plus the handle;
// CID, DLCI, the sessions and links of that link, and the number of bytes held.
#[repr(C)]
#[derive(Clone, Copy, Default)]
pub struct Stretch {
    pub way: u32,
    pub cid: u32,
    pub dlci: u32,
    pub sessions: u32,
    pub links: u32,
    pub held: u32,
}

// The stretch in the six words from word 6 * i of w on, or zeros where they are not there.
fn stretch_at(w: &[u8], i: usize) -> Stretch
    ensures { result ≡ stretch_at w.now i }
{
    if i < w.len() / 24 {
        let at = 6 * i;
        return Stretch {
            way: get32(w, at),
            cid: get32(w, at + 1),
            dlci: get32(w, at + 2),
            sessions: get32(w, at + 3),
            links: get32(w, at + 4),
            held: get32(w, at + 5),
        };
    }
    Stretch::default()
}

// Fills the first count places with the stretches in work.
pub fn fill(work: &[u8], stretches: &mut [Stretch], count: usize)
    requires { count ≤ length stretches.old }
    ensures { stretches.new ≡ filled work.now count stretches.old }
{
    for (i, stretch) in stretches[..count].iter_mut().enumerate() {
        *stretch = stretch_at(work, i);
    }
}

// ---- what each key holds at the end, told to each of its pieces

// Tells the length held after piece i to the piece before it of its key, if there is one.
fn hand_back(w: &mut [u8], p: Plan, i: usize)
    requires { PieceIn w.old p i }
    ensures { Handed w.old p i w.new }
{
    let table = Table { w, plan: p };
    if let Some(j) = table.earlier(i) {
        let h = table.held_after(i);
        put32(w, p.held + j, h);
    }
}

// Tells every piece the length held after the last piece of its key, from the last piece to the first.
// Stays: SpreadPre is a clause of three functions and no ghost field, since they write work, and a field would speak of work before the write.
fn spread_back(w: &mut [u8], p: Plan)
    requires { SpreadPre w.old p }
    ensures { Spread w.old p w.new }
{
    for i in (0..p.n).rev() {
        hand_back(w, p, i);
    }
}

// ---- the stretches that are open at the end, listed in work

// Whether piece i is the first of its key, of the DLCI, and something is held.
fn is_open(t: Table, i: usize) -> bool
    requires { i < t.plan.n }
    ensures { result ≡ is_open t.entry.w.now t.entry.plan i }
{
    if t.dlci_of(i) != t.plan.dlci {
        return false;
    }
    if t.earlier(i).is_some() {
        return false;
    }
    0 < t.held_after(i)
}

// The stretch of piece i, with the length held.
// Stays: way, CID and counts by their places in the row: they are read only here, and a method for each would be public in split.
fn stretch_of(t: Table, i: usize) -> Stretch
    requires { i < t.plan.n }
    ensures { result ≡ row_stretch t.entry.w.now t.entry.plan i }
{
    let row = t.plan.rows + 8 * i;
    let counts = get32(t.w, row + 3);
    Stretch {
        way: get32(t.w, row + 1),
        cid: get32(t.w, row + 2),
        dlci: t.dlci_of(i),
        sessions: counts % 65536,
        links: counts / 65536,
        held: t.held_after(i),
    }
}

// Puts a stretch into the six words from word at on.
fn put_stretch(w: &mut [u8], at: usize, s: Stretch)
    requires { 4 * at + 24 ≤ length w.old }
    ensures { w.new ≡ put_words w.old at (words_of s) }
{
    put32(w, at, s.way);
    put32(w, at + 1, s.cid);
    put32(w, at + 2, s.dlci);
    put32(w, at + 3, s.sessions);
    put32(w, at + 4, s.links);
    put32(w, at + 5, s.held);
}

// Lists the stretch of piece i behind the k that are listed, if it is open there; returns how many are listed.
fn add_open(w: &mut [u8], p: Plan, i: usize, k: usize) -> usize
    requires { AddPre w.old p i k }
    ensures { Added w.old p i k w.new result }
{
    let table = Table { w, plan: p };
    if is_open(table, i) {
        let s = stretch_of(table, i);
        put_stretch(w, 6 * k, s);
        return k + 1;
    }
    k
}

// Lists the open stretches at the start of work, in the order of their first pieces, where every piece is told what its key
// holds; returns how many.
fn list_spread(w: &mut [u8], p: Plan) -> usize
    requires { SpreadPre w.old p }
    ensures { SpreadListed w.old p w.new result }
{
    let n = p.n;
    let mut k = 0;
    for i in 0..n {
        k = add_open(w, p, i, k);
    }
    k
}

// Lists the stretches that are open at the end at the start of work, in the order of their first pieces, and returns how many.
pub fn list_open(w: &mut [u8], p: Plan) -> usize
    requires { SpreadPre w.old p }
    ensures { OpenListed w.old p w.new result }
{
    spread_back(w, p);
    list_spread(w, p)
}
