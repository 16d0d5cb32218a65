// L2CAP: PDUs put together from fragments. Each gets a row in work; its payload stays in the file, or is joined in work.
#![tactic(auto)]

ghost use Rattle.std.specs.Prelude.{◌≡◌, ◌+◌, ◌*◌, ◌/◌, ◌≤◌, length, take};
ghost use Rattle.laws.specs.Stores.{Writes};
ghost use Rattle.packets.specs.PacketTable.{packets_from, Tabled};
ghost use Rattle.fragments.specs.Bytes.{begun};
ghost use Rattle.fragments.specs.Reading.{bytes_of};
ghost use Rattle.l2cap.specs.Pdus.{pdus};
ghost use Rattle.l2cap.specs.PduTable.{pdu_at, Reassembled};
ghost use Rattle.l2cap.specs.PduFrames.{Lent};
ghost use Rattle.l2cap.specs.Reading.{PduIs};
ghost use Rattle.l2cap.specs.Steps.{Need, row_at, RowPre, open_in, next_by, Arrive, first_word, got_word, SetOpen, put_open, put_pdu, PutPdu, Join, Finish, Finished, begun_tables, Step, Stepped, Run, Ran};

use fragments::{Begun, len_of, link_packets, place_of, starts};
use words::{get32, get64, part, put32, put64};

// A PDU that is open under a key: the packet that began it, and its bytes so far.
#[derive(Clone, Copy)]
pub struct Open {
    pub first: usize,
    pub got: usize,
}

// The rows of open PDUs, the PDUs made, and the end of the joined payloads.
// Stays: live, though no code reads it: it is the number of rows of which each contract speaks, and a ghost field holds a fact, not a number.
#[derive(Clone, Copy)]
pub struct Tables {
    pub live: usize,
    pub made: usize,
    pub top: usize,
}

impl Tables {
    // Before the first packet, with q a quarter of the file's length: joined payloads will stand from word q of work.
    pub fn begun(q: usize, rows: usize) -> Tables
        requires { q ≤ 1048576 }
        ensures { result ≡ begun_tables q rows }
    {
        Tables {
            live: rows,
            made: 0,
            top: 4 * q,
        }
    }
}

// A PDU's row: 2 * link + direction, its CID, and where its payload starts, in the file or in work where it is joined.
// Stays: `joined` beside `start`, here and in `Pdu`. Work has them in two words, and an enum of the two places would be matched only to be made
// the same two again, in `put_pdu` and where a piece is placed.
#[derive(Clone, Copy)]
struct Row {
    key: u32,
    cid: u32,
    joined: bool,
    start: usize,
    len: usize,
    time: u64,
}

// How many bytes make a PDU complete of which got are there. With fewer than 4 its length is not there, and no packet is walked for it.
fn needed(b: Begun, got: usize) -> usize
    ensures { Need (bytes_of b.entry) got result }
{
    if got < 4 {
        return 4;
    }
    4 + usize::from(b.half(0))
}

// Where the row of packet i's key stands.
pub fn row_of(w: &[u8], q: usize, i: usize) -> usize
    requires { RowPre w.now q i }
    ensures { result ≡ row_at w.now q i }
{
    3 * q + 4 * get32(w, 7 * q + 2 * i + 1) as usize
}

// What is open, if anything is, by the row at word at.
// Stays: that the row is all there is asked here, by `arrive` and by `set_open`. A view of work with the row's place would hold it for two of them;
// `set_open` writes work, and would ask it all the same.
pub fn look(w: &[u8], at: usize) -> Option<Open>
    requires { 4 * at + 16 ≤ length w.now }
    ensures { result ≡ open_in w.now at }
{
    let first = (get32(w, at + 2) as usize).checked_sub(1)?;
    let got = get32(w, at + 3) as usize;
    Some(Open { first, got })
}

// Sets what is open, by the row at word at.
fn set_open(w: &mut [u8], at: usize, pdu: Option<Open>)
    requires { SetOpen w.old at pdu }
    ensures { w.new ≡ put_open w.old at (first_word pdu) (got_word pdu) }
{
    let (first, got) = match pdu {
        Some(p) => (p.first + 1, p.got),
        None => (0, 0),
    };
    put32(w, at + 2, first as u32);
    put32(w, at + 3, got as u32);
}

// What is open under packet i's key once it is read, by the row at word at.
fn arrive(w: &[u8], at: usize, i: usize) -> Option<Open>
    requires { Arrive w.now at i }
    ensures { result ≡ next_by w.now at i }
{
    let n = len_of(w, i);
    if starts(w, i) {
        return Some(Open { first: i, got: n });
    }
    let Open { first, got } = look(w, at)?;
    Some(Open {
        first,
        got: got + n,
    })
}

// Writes a PDU's row at word at.
fn put_pdu(w: &mut [u8], at: usize, p: Row)
    requires { PutPdu w.old at p }
    ensures { w.new ≡ put_pdu w.old at p }
{
    put32(w, at, p.key);
    put32(w, at + 1, p.cid);
    put32(w, at + 2, u32::from(p.joined));
    put32(w, at + 3, p.start as u32);
    put32(w, at + 4, p.len as u32);
    put64(w, at + 5, p.time);
}

// Joins need bytes of what packet first has begun, with the packets before upto, at the start of rest: what of work is behind the
// packets' rows and the payloads joined so far. The packets' links end it.
// Stays: rows and rest apart, and no Begun from the caller: the area in rest is written while the links behind it are read, so rest is
// split here; with both splits in finish (tried) only the length of work is known behind them.
fn join(file: &[u8], rows: &[u8], rest: &mut [u8], first: usize, upto: usize, need: usize) -> usize
    requires { Join file.now rows.now rest.old (length file.now / 4) first upto need }
    ensures { Writes rest.old 0 (take need (begun file.now rows.now first upto)) result rest.new }
{
    let (area, links) = rest.split_at_mut(28 * (file.len() / 4) - rows.len());
    let begun = Begun {
        file,
        rows,
        links,
        first,
        upto,
    };
    begun.gather(area, need)
}

// Packet i completes the PDU that packet first began: its row, and its bytes at the end of the joined ones if they have to be
// joined. Returns their end.
// Stays: file, w and t side by side here and below; w is written, and with it as a &mut in a struct (tried in measuring) a method promises
// too that the borrow is the same.
fn finish(file: &[u8], w: &mut [u8], t: Tables, i: usize, first: usize, need: usize) -> usize
    requires { Finish file.now w.old (length file.now / 4) t i first need }
    ensures { Finished file.now w.old (length file.now / 4) t i first need w.new result }
{
    let at = 2 * (file.len() / 4) + 7 * t.made;
    let key = get32(w, 6 * i);
    let cid = u32::from(Begun::in_work(file, w, first, i + 1).half(2));
    let time = get64(w, 6 * i + 4);
    let (joined, start, end) = if first == i {
        (false, place_of(w, i), t.top)
    } else {
        let (rows, rest) = w.split_at_mut(t.top);
        let n = join(file, rows, rest, first, i + 1, need);
        (true, t.top, t.top + n)
    };
    let p = Row {
        key,
        cid,
        joined,
        start: start + 4,
        len: need - 4,
        time,
    };
    put_pdu(w, at, p);
    end
}

// One packet: with q a quarter of the file's length, PDUs stand from word 2 * q of work, open PDUs from word 3 * q.
fn step(file: &[u8], w: &mut [u8], t: Tables, i: usize) -> Tables
    requires { Step file.now w.old (length file.now / 4) t i }
    ensures { Stepped file.now w.old (length file.now / 4) t i w.new result }
{
    let at = row_of(w, file.len() / 4, i);
    let Some(pdu) = arrive(w, at, i) else {
        return t;
    };
    let need = needed(Begun::in_work(file, w, pdu.first, i + 1), pdu.got);
    if need <= pdu.got {
        let end = finish(file, w, t, i, pdu.first, need);
        set_open(w, at, None);
        return Tables {
            made: t.made + 1,
            top: end,
            ..t
        };
    }
    set_open(w, at, Some(pdu));
    t
}

// The steps of the packets from one number up to another.
pub fn run(file: &[u8], w: &mut [u8], t: Tables, from: usize, upto: usize) -> Tables
    requires { Run file.now w.old (length file.now / 4) t from upto }
    ensures { Ran file.now (length file.now / 4) w.old t from w.new result upto }
{
    let mut s = t;
    for i in from..upto {
        s = step(file, w, s, i);
    }
    s
}

// The PDUs of the packets whose table stands at the start of work: their rows, and the payloads that had to be joined.
pub fn reassemble(file: &[u8], w: &mut [u8], count: usize) -> Tables
    requires { Tabled file.now w.old count }
    ensures { Reassembled file.now w.new result.made (pdus (packets_from file.now w.old 0 count)) }
{
    let q = file.len() / 4;
    let rows = link_packets(w, q, count);
    run(file, w, Tables::begun(q, rows), 0, count)
}

// A PDU as its row has it: 2 * link + direction, its CID, and its payload, which starts at a place in the file, or in work where it is joined.
#[derive(Clone, Copy)]
pub struct Pdu<'a> {
    pub side: u32,
    pub cid: u32,
    pub joined: bool,
    pub start: u32,
    pub payload: &'a [u8],
}

// The payload of the PDU whose row is at word at: a part of the file, or of work if it was joined.
pub fn payload<'a>(file: &'a [u8], w: &'a [u8], at: usize) -> &'a [u8]
    requires { Lent file.now w.now at }
    ensures { result.now ≡ (pdu_at file.now w.now at).payload }
{
    let joined = get32(w, at + 2);
    let s = get32(w, at + 3) as usize;
    let n = get32(w, at + 4) as usize;
    if joined == 1 {
        return part(w, s, n);
    }
    part(file, s, n)
}

// The PDU whose row is at word at.
pub fn read_pdu<'a>(file: &'a [u8], w: &'a [u8], at: usize) -> Pdu<'a>
    requires { Lent file.now w.now at }
    ensures { PduIs file.now w.now at result }
{
    Pdu {
        side: get32(w, at),
        cid: get32(w, at + 1),
        joined: get32(w, at + 2) == 1,
        start: get32(w, at + 3),
        payload: payload(file, w, at),
    }
}
