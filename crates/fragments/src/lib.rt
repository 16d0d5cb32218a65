// The fragments of a trace by their keys, link and direction. Each packet is linked to the next one of its key that has bytes,
// and the row of its key is noted: so the pass that puts PDUs together seeks no key, and walks the fragments of one alone.
#![tactic(auto)]

ghost use Rattle.std.specs.Prelude.{◌≡◌, ◌+◌, ◌*◌, ◌≤◌, ◌<◌, length, eqb};
ghost use Rattle.words.specs.Words.{word};
ghost use Rattle.tree.specs.Seats.{Seated};
ghost use Rattle.fragments.specs.Links.{index_of, open_in, blank_row, head_of, head_with, Head, noted, Note, SeatKey, LinkStep, LinkedStep, LinkRoom, LinkBegun, LinkedTo};

mod begun;

pub use begun::Begun;
use table::Row;
use tree::{Seating, Table, Tree, clear, seat};
use words::{get32, put32};

// Where the open PDUs stand and their index, with q a quarter of the file's length.
fn index_of(q: usize) -> Tree
    requires { q ≤ 1048576 }
    ensures { result ≡ index_of q }
{
    Tree {
        rows: 3 * q,
        links: 5 * q,
        roots: q / 64 + 1,
    }
}

// The row of a key among the open PDUs, a new one with nothing open if there is none.
// Stays: w and q side by side, here and below: w is written, and q, which says where each table lies, is asked with the rows in one clause.
fn seat_key(w: &mut [u8], q: usize, rows: usize, key: u32, near: usize) -> Seating
    requires { SeatKey w.old q rows }
    ensures { Seated w.old (open_in q rows) (blank_row key) w.new result }
{
    let at = index_of(q);
    let row = Row {
        key: u64::from(key),
        a: 0,
        b: 0,
    };
    seat(w, Table { at, count: rows }, row, near)
}

// The packet that comes next under the key of row at, plus one. There were so many rows: if it is new, none comes.
// Stays: the count of packets plus one for none, and no Option: it is the word that work has for none, and is stored as it is.
fn head_of(w: &[u8], q: usize, rows: usize, at: usize, none: u32) -> u32
    requires { Head w.now q at }
    ensures { result ≡ head_of w.now q rows at none }
{
    if at == rows {
        return none;
    }
    get32(w, 6 * q + at)
}

// The same with packet i before it: i itself, if it has bytes.
fn head_with(n: usize, i: usize, next: u32) -> u32
    requires { i < 4294967295 }
    ensures { result ≡ head_with n i next }
{
    if n == 0 {
        return next;
    }
    (i + 1) as u32
}

// Notes the link of packet i, the row of its key, and what is now the first packet of the key.
fn note(w: &mut [u8], q: usize, i: usize, next: u32, at: usize, head: u32)
    requires { Note w.old q i at }
    ensures { w.new ≡ noted w.old q i next at head }
{
    put32(w, 7 * q + 2 * i, next);
    put32(w, 7 * q + 2 * i + 1, at as u32);
    put32(w, 6 * q + at, head);
}

// Links packet i to the next one under its key that has bytes. s has the row of the packet behind it.
fn link_row(w: &mut [u8], q: usize, s: Seating, i: usize, none: u32) -> Seating
    requires { LinkStep w.old q s.rows i }
    ensures { LinkedStep w.old q s.rows i none w.new result }
{
    let rows = s.rows;
    let key = get32(w, 6 * i);
    let n = len_of(w, i);
    let t = seat_key(w, q, rows, key, s.at);
    let at = t.at;
    let next = head_of(w, q, rows, at, none);
    note(w, q, i, next, at, head_with(n, i, next));
    t
}

// The same for all packets, from the last to the first, with a table of keys that is empty. Returns the count of keys.
fn link_rows(w: &mut [u8], q: usize, count: usize) -> usize
    requires { LinkBegun w.old q count }
    ensures { LinkedTo w.old q count w.new result }
{
    let none = (count + 1) as u32;
    let mut s = Seating { rows: 0, at: 0 };
    for i in (0..count).rev() {
        s = link_row(w, q, s, i, none);
    }
    s.rows
}

// Links each packet to the next one under its key, and returns the count of keys.
pub fn link_packets(w: &mut [u8], q: usize, count: usize) -> usize
    requires { LinkRoom w.old q count }
    ensures { LinkedTo w.old q count w.new result }
{
    clear(w, index_of(q));
    link_rows(w, q, count)
}

// ---- a packet's row

// Whether packet i starts a PDU.
pub fn starts(w: &[u8], i: usize) -> bool
    requires { 24 * i + 24 ≤ length w.now }
    ensures { result ≡ eqb (word w.now (6 * i + 1)) 1 }
{
    get32(w, 6 * i + 1) == 1
}

// The number of bytes of packet i.
pub fn len_of(w: &[u8], i: usize) -> usize
    requires { 24 * i + 24 ≤ length w.now }
    ensures { result ≡ word w.now (6 * i + 3) }
{
    get32(w, 6 * i + 3) as usize
}

// Where they start in the file.
pub fn place_of(w: &[u8], i: usize) -> usize
    requires { 24 * i + 24 ≤ length w.now }
    ensures { result ≡ word w.now (6 * i + 2) }
{
    get32(w, 6 * i + 2) as usize
}
