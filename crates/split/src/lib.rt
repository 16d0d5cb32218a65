// The pieces of one DLCI, of which spans are counted (measuring) and written (writing): the table, the pieces of a key linked, and
// what a key holds put together.
//
// Three words are stored for each piece: which piece of its key came before it, how many bytes its key holds after it, and
// where its first 3C stands. The buffer of a key is then the last that many bytes of all that came under the key, and is
// put together where a 3C closes it. No piece of another key is walked, and what counting finds is not searched for again.
#![tactic(auto)]

ghost use Rattle.std.specs.Prelude.{◌≡◌};
ghost use Rattle.split.specs.Rows.{len_at};
ghost use Rattle.split.specs.Walks.{Row, LinkRoom, LinkedTo, JoinPre, Joined};

mod pieces;

use classes::{Rows, link_all};
pub use pieces::{Pieces, Table};
use words::get32;

// Where the tables lie in work: the pieces, what links them, the lengths held and the places of 3C by words, the area by
// bytes. And the DLCI.
// Stays: places and a count, and no slices: the tables lie side by side in the lent work, which is written; there is no heap.
#[derive(Clone, Copy)]
pub struct Plan {
    pub rows: usize,
    pub n: usize,
    pub chain: usize,
    pub held: usize,
    pub ends: usize,
    pub area: usize,
    pub dlci: u32,
}

// The length of piece i.
pub fn length_of(w: &[u8], p: Plan, i: usize) -> usize
    requires { Row w.now p i }
    ensures { result ≡ len_at w.now p i }
{
    (get32(w, p.rows + 8 * i + 5) % 65536) as usize
}

// ---- the pieces linked, before all else

// Links each piece to the one before it that has the same key. The words from links on, three for each piece, are free afterwards.
pub fn link_pieces(w: &mut [u8], p: Plan, links: usize)
    requires { LinkRoom w.old p links }
    ensures { LinkedTo w.old p w.new }
{
    let x = Rows {
        at: p.rows,
        n: p.n,
        links,
    };
    link_all(w, x, p.chain);
}

// ---- the buffer of a key

// Puts the buffer of the key of i and piece i behind it into the area, and returns how long they are.
pub fn join(file: &[u8], w: &mut [u8], p: Plan, i: usize, h: usize) -> usize
    requires { JoinPre file.now w.old p i h }
    ensures { Joined file.now w.old p i w.new result }
{
    let (tables, area) = w.split_at_mut(p.area);
    let s = Pieces {
        file,
        w: tables,
        plan: p,
    };
    s.gather(i, h, area, 0);
    let n = s.length_of(i);
    s.put_part(i, 0, n, area, h);
    h + n
}
