// Sessions and links counted, the pieces of information that UIH frames carry gathered, and how many of these frames have a wrong FCS; and the way from
// the table of packets to that of pieces.
#![tactic(auto)]

ghost use Rattle.std.specs.Prelude.{◌≡◌, ◌+◌, ◌*◌, ◌/◌, ◌≤◌, ◌<◌, length, get_or, set};
ghost use Rattle.gathering.specs.CountTable.{value_of, count_index, UpPre, CountedUp};
ghost use Rattle.rfcomm.specs.PieceRows.{row_of};
ghost use Rattle.table.specs.Table.{lookup};
ghost use Rattle.words.specs.Rows.{put_words};
ghost use Rattle.words.specs.Words.{long};
ghost use Rattle.packets.specs.PacketTable.{Tabled};
ghost use Rattle.gathering.specs.Gathering.{part_of, PiecePre, TakePre, Ready, TakenIn, PiecesPre, PiecesBegun, ReadPieces, Gathers};

use channels::read_channels;
use l2cap::reassemble;
use rfcomm::{Info, Part, Verdict, judge, put_piece};
use table::Row;
use tree::{Forest, Seating, Table, Tree, clear, seat};
use words::{get32, get64, put32};

// Where the counts from word base on have their links: base is 6 areas, and rows and links share the seventh, but for the last
// seventh of it, where the index of the channels begins.
#[tactic(auto, unfolding(crate::specs::CountTable::count_index))]
fn index_of(base: usize) -> Tree
    requires { base ≤ 8388608 }
    ensures { result ≡ count_index base }
{
    Tree {
        rows: base,
        links: base + 4 * (base / 42),
        roots: base / 1536 + 1,
    }
}

// How often a key was counted, and its row, or near if it has none.
#[derive(Clone, Copy)]
struct Count {
    value: u32,
    row: usize,
}

// How often a key was counted. The rows from near on are looked at first.
fn count_of(counts: Forest, key: u64, near: usize) -> Count
    ensures { result.value ≡ value_of (lookup counts.entry.w.now counts.entry.table.at.rows counts.entry.table.count key) }
{
    match counts.seek_near(key, near) {
        Some(i) => Count {
            value: get32(counts.w, counts.table.at.rows + 4 * i + 2),
            row: i,
        },
        None => Count {
            value: 0,
            row: near,
        },
    }
}

// Counts a key once more, and returns the count of rows and its row.
fn count_up(w: &mut [u8], counts: Table, key: u64, near: usize) -> Seating
    requires { UpPre w.old counts key }
    ensures { CountedUp w.old counts key w.new result }
{
    let s = seat(w, counts, Row { key, a: 0, b: 0 }, near);
    let at = counts.at.rows + 4 * s.at + 2;
    let n = get32(w, at);
    put32(w, at, n + 1);
    s
}

// The rows of counts that were found last: of a link's sessions, and of its links on a DLCI. Pieces come in runs.
#[derive(Clone, Copy, Default)]
pub struct Near {
    pub sessions: usize,
    pub links: usize,
}

// Rows of counts, and pieces.
#[derive(Clone, Copy, Default)]
pub struct Taken {
    pub counts: usize,
    pub pieces: usize,
    pub near: Near,
}

// The key of a link's count: its sessions under DLCI 0, else its links on the DLCI.
fn count_key(link: u32, dlci: u32) -> u64
    requires { dlci < 64 }
    ensures { result ≡ 64 * link + dlci }
{
    64 * (link as u64) + (dlci as u64)
}

// A piece, and the rows of its counts.
#[derive(Clone, Copy)]
struct Placed {
    part: Part,
    near: Near,
}

// The piece that a PDU's information makes, with the counts that stand.
#[tactic(auto, unfolding(crate::specs::Gathering::part_of))]
fn piece_of(counts: Forest, row: usize, i: Info, near: Near) -> Placed
    requires { PiecePre counts.w.now row i }
    ensures { result.part ≡ part_of counts.entry.w.now row counts.entry.table i }
{
    let w = counts.w;
    let side = get32(w, row);
    let link = side / 2;
    let sessions = count_of(counts, count_key(link, 0), near.sessions);
    let links = count_of(counts, count_key(link, i.dlci), near.links);
    let part = Part {
        dlci: i.dlci,
        way: side,
        cid: get32(w, row + 1),
        sessions: sessions.value,
        links: links.value,
        start: i.start as u32,
        len: i.len as u32,
        joined: i.joined,
    };
    let found = Near {
        sessions: sessions.row,
        links: links.row,
    };
    Placed { part, near: found }
}

// Takes in the piece of a PDU's information as the row at word at, and returns the rows of its counts.
#[tactic(auto, unfolding(crate::specs::Gathering::part_of))]
fn take_piece(w: &mut [u8], row: usize, counts: Table, i: Info, near: Near, at: usize) -> Near
    requires { TakePre w.old row counts i at }
    ensures { w.new ≡ put_words w.old at (row_of (part_of w.old row counts i) (long w.old (row + 5))) }
{
    let p = piece_of(Forest { w, table: counts }, row, i, near);
    let part = p.part;
    let time = get64(w, row + 5);
    put_piece(w, at, part, time);
    p.near
}

// Counts one more frame with a wrong FCS on a DLCI.
// Stays: by its index; with get_mut, tried, it is not proved of a None that the counts are as they were.
fn note_wrong(wrong: &mut [u32], dlci: u32)
    requires { get_or wrong.old dlci 0 < 4294967295 }
    ensures { wrong.new ≡ set wrong.old dlci (get_or wrong.old dlci 0 + 1) }
{
    let k = dlci as usize;
    if k < wrong.len() {
        wrong[k] += 1;
    }
}

// Takes in PDU number j: a count, a piece, a frame with a wrong FCS, or nothing.
fn take_pdu(
    file: &[u8],
    w: &mut [u8],
    rows: usize,
    fcs: bool,
    wrong: &mut [u32],
    t: Taken,
    j: usize,
) -> Taken
    requires { Ready file.now w.old (length file.now / 4) rows t j wrong.old }
    ensures { TakenIn fcs file.now w.old (length file.now / 4) rows t j wrong.old w.new result wrong.new }
{
    let q = file.len() / 4;
    let row = 2 * q + 7 * j;
    let counts = Table {
        at: index_of(6 * q),
        count: t.counts,
    };
    let near = t.near;
    let v = judge(file, w, row, q, rows, fcs);
    let link = get32(w, row) / 2;
    match v {
        Verdict::Asks => {
            let s = count_up(w, counts, count_key(link, 0), near.sessions);
            Taken {
                counts: s.rows,
                near: Near {
                    sessions: s.at,
                    ..near
                },
                ..t
            }
        }
        Verdict::Opens(d) => {
            let s = count_up(w, counts, count_key(link, d), near.links);
            Taken {
                counts: s.rows,
                near: Near {
                    links: s.at,
                    ..near
                },
                ..t
            }
        }
        Verdict::Carries(i) => {
            let found = take_piece(w, row, counts, i, near, 5 * q + 8 * t.pieces);
            Taken {
                pieces: t.pieces + 1,
                near: found,
                ..t
            }
        }
        Verdict::Wrong(d) => {
            note_wrong(wrong, d);
            t
        }
        Verdict::Passed => t,
    }
}

// What all PDUs, so many, bring: so many pieces, and for each DLCI so many frames with a wrong FCS.
#[derive(Clone, Copy)]
pub struct Gathered {
    pub pdus: usize,
    pub pieces: usize,
    pub wrong: [u32; 64],
}

// Takes in all PDUs, with a table of counts that is empty.
fn take_pdus(file: &[u8], w: &mut [u8], made: usize, rows: usize, fcs: bool) -> Gathered
    requires { PiecesBegun file.now w.old made rows }
    ensures { ReadPieces fcs file.now w.old made w.new result }
{
    let mut wrong = [0u32; 64];
    let mut t = Taken::default();
    for j in 0..made {
        t = take_pdu(file, w, rows, fcs, &mut wrong, t, j);
    }
    Gathered {
        pdus: made,
        pieces: t.pieces,
        wrong,
    }
}

// Reads the pieces of all PDUs into their table, with FCS checked or not.
pub fn read_pieces(file: &[u8], w: &mut [u8], made: usize, rows: usize, fcs: bool) -> Gathered
    requires { PiecesPre file.now w.old made rows }
    ensures { ReadPieces fcs file.now w.old made w.new result }
{
    clear(w, index_of(6 * (file.len() / 4)));
    take_pdus(file, w, made, rows, fcs)
}

// From the table of packets to the table of pieces, by three passes: the PDUs, the channels that they name and admit, the pieces.
pub fn gather(file: &[u8], w: &mut [u8], packets: usize, fcs: bool) -> Gathered
    requires { Tabled file.now w.old packets }
    ensures { Gathers fcs file.now w.old packets w.new result }
{
    let made = reassemble(file, w, packets).made;
    let rows = read_channels(file, w, made);
    read_pieces(file, w, made, rows, fcs)
}
