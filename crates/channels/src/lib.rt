// Signalling: the channels that requests and responses name and admit, and which PDUs are tried.
#![tactic(auto)]

ghost use Rattle.std.specs.Prelude.{◌≡◌, ◌&&◌, ◌+◌, ◌*◌, ◌/◌, ◌%◌, ◌≤◌, ◌<◌, length, leb, eqb};
ghost use Rattle.laws.specs.Numbers.{le16};
ghost use Rattle.table.specs.Table.{lookup};
ghost use Rattle.tree.specs.Tree.{EnterPre};
ghost use Rattle.items.specs.Items.{rx_of};
ghost use Rattle.l2cap.specs.PduTable.{pdu_at, pdus_from, Reassembled};
ghost use Rattle.channels.specs.Signals.{commands, body, opposite, signal_of};
ghost use Rattle.channels.specs.Channels.{any, asks_rfcomm};
ghost use Rattle.channels.specs.ChannelTable.{channel_key, channel_index};
ghost use Rattle.channels.specs.Reading.{command_bytes, told};
ghost use Rattle.channels.specs.Noting.{graded, word_of, standing_of, request_grade, response_grade, RaisedIn, NotedIn};
ghost use Rattle.channels.specs.Passing.{StepIs, PduStepPre, NotePreIn, PduNotedIn, NoneNoted, ReadChannels, Tries, Judged};

use items::Direction;
use l2cap::{Pdu, read_pdu};
use table::Row;
use tree::{Forest, Table, Tree, clear, seat};
use words::{field16, get32, put32};

// A channel: data with this CID in this direction of a link.
#[derive(Clone, Copy)]
pub struct Triple {
    pub link: u32,
    pub direction: Direction,
    pub cid: u16,
}

// What a command says: the channel that it names, with a request's PSM, or with the source that a response answers and
// whether it is a success.
#[derive(Clone, Copy)]
pub enum Signal {
    Request(Triple, u16),
    Response(Triple, u16, bool),
}

// ---- one command

// The codes of a request to connect and of a response to one, and the PSM that RFCOMM is asked for by.
const REQUEST: u8 = 2;

const RESPONSE: u8 = 3;

const RFCOMM: u16 = 3;

// The body of a command; one passing the end reads as empty.
fn body_of(c: &[u8]) -> &[u8]
    ensures { result.now ≡ body c.now }
{
    let Some(size) = field16(c, 2) else {
        return &[];
    };
    let end = 4 + usize::from(size);
    c.get(4..end).unwrap_or_default()
}

// The other direction.
fn flip(d: Direction) -> Direction
    ensures { rx_of result ≡ opposite (rx_of d) }
{
    match d {
        Direction::Rx => Direction::Tx,
        Direction::Tx => Direction::Rx,
    }
}

// Whether the body of a response has a result, and it is 0.
fn is_success(b: &[u8]) -> bool
    ensures { result ≡ (leb 6 (length b.now) && eqb (le16 b.now 4) 0) }
{
    field16(b, 4) == Some(0)
}

// What a command says, in a PDU of this link and direction, if it is a request or a response.
fn read_signal(c: &[u8], link: u32, direction: Direction) -> Option<Signal>
    ensures { told result ≡ signal_of link (rx_of direction) c.now }
{
    let b = body_of(c);
    let x = field16(b, 0)?;
    let y = field16(b, 2)?;
    let other = flip(direction);
    match c[0] {
        REQUEST => Some(Signal::Request(
            Triple {
                link,
                direction: other,
                cid: y,
            },
            x,
        )),
        RESPONSE => Some(Signal::Response(
            Triple {
                link,
                direction: other,
                cid: x,
            },
            y,
            is_success(b),
        )),
        _ => None,
    }
}

// Whether a command is a PSM 3 request, even one of 2 body bytes.
fn asks_rfcomm(c: &[u8]) -> bool
    ensures { result ≡ asks_rfcomm c.now }
{
    field16(body_of(c), 0) == Some(RFCOMM) && c[0] == REQUEST
}

// ---- the commands of a payload

// How many bytes the first command has; all that are left if its body passes the end. (Under 4 bytes are no command: they
// read as one that says nothing.)
fn command_len(s: &[u8]) -> usize
    ensures { result ≡ length (command_bytes s.now) }
{
    let Some(size) = field16(s, 2) else {
        return s.len();
    };
    (4 + usize::from(size)).min(s.len())
}

// What is left of a payload. Iterating gives its commands, each as its bytes.
#[derive(Clone, Copy)]
struct Commands<'a> {
    rest: &'a [u8],
}

impl<'a> Iterator for Commands<'a> {
    ghost use Rattle.std.specs.Iterator.{YieldsFirstRef, item_count};
    ghost use Rattle.channels.specs.Reading.{commands_left};

    type Item = &'a [u8];

    ghost next_gives = { YieldsFirstRef commands_left };

    ghost remaining = { item_count commands_left };

    fn next(&mut self) -> Option<&'a [u8]> {
        let rest = self.rest;
        if rest.len() < 4 {
            return None;
        }
        let (first, after) = rest.split_at(command_len(rest));
        self.rest = after;
        Some(first)
    }
}

// Whether a command of the payload is a PSM 3 request.
pub fn asks_session(s: &[u8]) -> bool
    ensures { result ≡ any asks_rfcomm (commands s.now) }
{
    Commands { rest: s }.any(asks_rfcomm)
}

// ---- the table of channels

// The key of the channel of data with a CID on a side, 2 * link + direction.
fn key_on(side: u64, cid: u64) -> u64
    requires { (side < 8589934592) × (cid < 4294967296) }
    ensures { result ≡ side * 65536 + cid }
{
    side * 65536 + cid
}

// The key of a channel.
fn key_of(t: Triple) -> u64
    ensures { result ≡ channel_key t.link (rx_of t.direction) t.cid }
{
    let side = 2 * (t.link as u64);
    match t.direction {
        Direction::Rx => key_on(side + 1, t.cid as u64),
        Direction::Tx => key_on(side, t.cid as u64),
    }
}

// The grade of a channel: it is named and no more, or a response admitted it, or a PSM 3 request did. A row has it as a word.
#[derive(Clone, Copy, PartialEq, Eq)]
enum Grade {
    Named,
    Answered,
    Asked,
}

impl From<u32> for Grade {
    ghost from_gives = { λ n g. g ≡ graded n };

    fn from(n: u32) -> Grade {
        match n {
            0 => Grade::Named,
            1 => Grade::Answered,
            _ => Grade::Asked,
        }
    }
}

impl From<Grade> for u32 {
    ghost from_gives = { λ g n. n ≡ word_of g };

    fn from(g: Grade) -> u32 {
        match g {
            Grade::Named => 0,
            Grade::Answered => 1,
            Grade::Asked => 2,
        }
    }
}

// The row last but one: a channel that is named or asked for is often one of the last two.
fn last_but_one(rows: usize) -> usize {
    rows.saturating_sub(2)
}

// The grade of the channel of this key, if anything names it.
// Stays: the word's place by a sum, here, in raise and in gathering: two of the four are written, and a Forest is only read.
fn look(f: Forest, key: u64) -> Option<Grade>
    ensures { result ≡ standing_of (lookup f.entry.w.now f.entry.table.at.rows f.entry.table.count key) }
{
    let t = f.table;
    let i = f.seek_near(key, last_but_one(t.count))?;
    Some(Grade::from(get32(f.w, t.at.rows + 4 * i + 2)))
}

// The grade that a request gives the channel that it names.
fn request_grade(psm: u16) -> Grade
    ensures { word_of result ≡ request_grade psm }
{
    if psm == RFCOMM {
        Grade::Asked
    } else {
        Grade::Named
    }
}

// The grade that a response gives, of a success or not, to a request that named the channel of this key.
fn response_grade(f: Forest, asked: u64, ok: bool) -> Grade
    ensures { word_of result ≡ response_grade ok (lookup f.entry.w.now f.entry.table.at.rows f.entry.table.count asked) }
{
    if ok && look(f, asked) == Some(Grade::Asked) {
        Grade::Answered
    } else {
        Grade::Named
    }
}

// Notes that a channel is named, with a grade; its grade never falls. Returns the count of rows.
// Stays: grades compared as words: by a derived order (tried) the row's word is made a grade first, and the grade is made a word all the same.
// Inlined: a call hands the table on in memory, a fifth more instructions where a file is full of requests.
#[inline(always)]
fn raise(w: &mut [u8], t: Table, key: u64, grade: Grade) -> usize
    requires { EnterPre w.old t }
    ensures { RaisedIn w.old t key (word_of grade) w.new result }
{
    let v = u32::from(grade);
    let s = seat(w, t, Row { key, a: v, b: 0 }, last_but_one(t.count));
    let at = t.at.rows + 4 * s.at + 2;
    if v <= get32(w, at) {
        return s.rows;
    }
    put32(w, at, v);
    s.rows
}

// Notes what a command says. Returns the count of rows.
fn note(w: &mut [u8], t: Table, said: Option<Signal>) -> usize
    requires { EnterPre w.old t }
    ensures { NotedIn w.old t said w.new result }
{
    let Some(signal) = said else {
        return t.count;
    };
    match signal {
        Signal::Request(c, psm) => {
            let key = key_of(c);
            raise(w, t, key, request_grade(psm))
        }
        Signal::Response(c, source, ok) => {
            let asker = flip(c.direction);
            let asked = key_of(Triple {
                link: c.link,
                direction: asker,
                cid: source,
            });
            let grade = response_grade(Forest { w, table: t }, asked, ok);
            let key = key_of(c);
            raise(w, t, key, grade)
        }
    }
}

// ---- the signals of PDUs

// What a command says, and the place after it.
#[derive(Clone, Copy)]
struct Step {
    said: Option<Signal>,
    next: usize,
}

// One signalling step over a payload.
fn step_at(s: &[u8], at: usize, link: u32, direction: Direction) -> Step
    requires { at < length s.now }
    ensures { StepIs s.now at link (rx_of direction) result }
{
    let end = at + command_len(&s[at..]);
    let said = read_signal(&s[at..end], link, direction);
    Step { said, next: end }
}

// One signalling step over the payload of the PDU whose row is at word row.
fn pdu_step(file: &[u8], w: &[u8], row: usize, at: usize) -> Step
    requires { PduStepPre file.now w.now row at }
    ensures { StepIs (pdu_at file.now w.now row).payload at (pdu_at file.now w.now row).link (pdu_at file.now w.now row).rx result }
{
    let p = read_pdu(file, w, row);
    step_at(p.payload, at, p.side / 2, Direction::in_side(p.side))
}

// Notes what the PDU whose row is at word row says. Returns the count of rows.
fn note_pdu(file: &[u8], w: &mut [u8], row: usize, mut t: Table) -> usize
    requires { NotePreIn file.now w.old row t }
    ensures { PduNotedIn file.now w.old row t w.new result }
{
    if get32(w, row + 1) != 1 {
        return t.count;
    }
    let size = get32(w, row + 4) as usize;
    let mut at = 0;
    // Stays: by places, and no iterator of commands: the payload may lie in work, which is written between two of them.
    while at < size {
        let step = pdu_step(file, w, row, at);
        let said = step.said;
        at = step.next;
        t.count = note(w, t, said);
    }
    t.count
}

// Where the channels stand in work: their rows in two areas; the roots of their trees in the last seventh of an area that counts
// leave free, and their links behind them, in the last area, which is free until spans are split.
fn index_of(q: usize) -> Tree
    requires { q ≤ 1048576 }
    ensures { result ≡ channel_index q }
{
    Tree {
        rows: 3 * q,
        links: 6 * q + 6 * q / 7,
        roots: q / 8 + 1,
    }
}

// Notes what all PDUs say, in a table that is empty, and returns the count of rows.
fn note_pdus(file: &[u8], w: &mut [u8], made: usize) -> usize
    requires { NoneNoted file.now w.old made }
    ensures { ReadChannels file.now w.old made w.new result }
{
    let q = file.len() / 4;
    let mut t = Table {
        at: index_of(q),
        count: 0,
    };
    for i in 0..made {
        t.count = note_pdu(file, w, 2 * q + 7 * i, t);
    }
    t.count
}

// Notes what all PDUs say, and returns the count of rows.
pub fn read_channels(file: &[u8], w: &mut [u8], made: usize) -> usize
    requires { Reassembled file.now w.old made (pdus_from file.now w.old (2 * (length file.now / 4)) 0 made) }
    ensures { ReadChannels file.now w.old made w.new result }
{
    clear(w, index_of(file.len() / 4));
    note_pdus(file, w, made)
}

// ---- what becomes of a PDU

// Whether a PDU asks for a session.
pub fn asks(p: Pdu) -> bool
    ensures { result ≡ (eqb p.entry.cid 1 && any asks_rfcomm (commands p.entry.payload.now)) }
{
    p.cid == 1 && asks_session(p.payload)
}

// Whether a PDU is tried, by the first word of its row, 2 * link + direction, and its CID.
// q is a quarter of the file's length.
// Stays: w, q and rows, of which the Forest is made here: that q says where the index lies is channels' own.
pub fn is_tried(w: &[u8], q: usize, rows: usize, side: u32, cid: u32) -> bool
    requires { Tries w.now q rows }
    ensures { Judged w.now (3 * q) rows side cid result }
{
    let at = index_of(q);
    let f = Forest {
        w,
        table: Table { at, count: rows },
    };
    let Some(grade) = look(f, key_on(side as u64, cid as u64)) else {
        return 0x40 <= cid;
    };
    grade != Grade::Named
}
