// RFCOMM: what a PDU is once it is judged, and the rows of the pieces of information that UIH frames carry.
#![tactic(auto)]

ghost use Rattle.std.specs.Prelude.{◌≡◌, ◌+◌, ◌*◌, ◌≤◌, ◌<◌, length};
ghost use Rattle.rfcomm.specs.Judging.{placed_uih, FrameVerdict, JudgePre, VerdictIs};
ghost use Rattle.rfcomm.specs.PieceRows.{stretch_of, bytes_of, row_of, PutPre};
ghost use Rattle.words.specs.Rows.{put_words};

use channels::{asks, is_tried};
use l2cap::{Pdu, read_pdu};
use uih::{Frame, Uih, read_frame};
use words::{put32, put64};

// A piece: its row's numbers but the time.
#[derive(Clone, Copy)]
pub struct Part {
    pub dlci: u32,
    // 2 * link + direction
    pub way: u32,
    pub cid: u32,
    pub sessions: u32,
    pub links: u32,
    pub start: u32,
    pub len: u32,
    // whether the information lies in work
    pub joined: bool,
}

// Two 16-bit numbers in a word.
fn pair(lo: u32, hi: u32) -> u32
    requires { (lo < 65536) × (hi < 65536) }
    ensures { result ≡ lo + 65536 * hi }
{
    lo + 65536 * hi
}

// Writes the first words of a piece's row: DLCI, stretch and direction.
#[tactic(auto, unfolding(words::specs::Rows::put_words, crate::specs::PieceRows::stretch_of))]
fn put_stretch(w: &mut [u8], at: usize, p: Part)
    requires { PutPre w.old at p }
    ensures { w.new ≡ put_words w.old at (stretch_of p) }
{
    let counts = pair(p.sessions, p.links);
    put32(w, at, p.dlci);
    put32(w, at + 1, p.way);
    put32(w, at + 2, p.cid);
    put32(w, at + 3, counts);
}

// Writes the other words of a piece's row, from word at on: its information and time.
#[tactic(auto, unfolding(words::specs::Rows::put_words, words::specs::Words::put_long, crate::specs::PieceRows::bytes_of))]
fn put_bytes(w: &mut [u8], at: usize, start: u32, size: u32, time: u64)
    requires { 4 * at + 16 ≤ length w.old }
    ensures { w.new ≡ put_words w.old at (bytes_of start size time) }
{
    put32(w, at, start);
    put32(w, at + 1, size);
    put64(w, at + 2, time);
}

// Writes the row of a piece at word at.
pub fn put_piece(w: &mut [u8], at: usize, p: Part, time: u64)
    requires { PutPre w.old at p }
    ensures { w.new ≡ put_words w.old at (row_of p time) }
{
    put_stretch(w, at, p);
    let size = pair(p.len, u32::from(p.joined));
    put_bytes(w, at + 4, p.start, size, time);
}

// Information in the file, or in work where it is joined.
// Stays: no ghost fields for the bounds of dlci, start and len that `gathering` asks in three clauses. That start is below 2^32 comes of the file's
// length, of which a PDU tells nothing, and `count_key` is asked of the DLCI of `Opens` too: two of the three would be asked all the same.
#[derive(Clone, Copy)]
pub struct Info {
    pub dlci: u32,
    pub start: usize,
    pub len: usize,
    pub joined: bool,
}

// What a PDU is once it is judged.
#[derive(Clone, Copy)]
pub enum Verdict {
    // a PSM 3 request
    Asks,
    // SABM on a DLCI
    Opens(u32),
    // UIH with information
    Carries(Info),
    // UIH with a wrong FCS, where it is checked: the DLCI
    Wrong(u32),
    Passed,
}

// The information of a UIH frame in the payload of a PDU. DLCI 0 and empty information are passed over.
#[tactic(auto, unfolding(crate::specs::Judging::placed_uih))]
fn place_uih(p: Pdu, u: Uih) -> Verdict
    requires { u.start ≤ 5 }
    ensures { result ≡ placed_uih p.entry u }
{
    if u.dlci == 0 || u.len == 0 {
        return Verdict::Passed;
    }
    Verdict::Carries(Info {
        dlci: u.dlci,
        start: p.start as usize + u.start,
        len: u.len,
        joined: p.joined,
    })
}

// What the frame in the payload of a PDU is, with FCS checked or not.
#[tactic(auto, unfolding(crate::specs::Judging::kind_in, crate::specs::Pieces::frame_kind, uih::specs::Reading::frame_shown, uih::specs::Reading::seen, uih::specs::Reading::uih_at))]
fn judge_frame(p: Pdu, fcs: bool) -> Verdict
    ensures { FrameVerdict fcs p.entry result }
{
    match read_frame(p.payload, fcs) {
        Frame::Sabm(d) => Verdict::Opens(d),
        Frame::Uih(u) => place_uih(p, u),
        Frame::WrongFcs(u) => Verdict::Wrong(u.dlci),
        Frame::Other => Verdict::Passed,
    }
}

// What the PDU of a row is, by the channels of the whole file. q is a quarter of the file's length.
// Stays: q, beside the file: what is asked and promised holds for each q, so that one of the file's length would serve fewer callers.
pub fn judge(file: &[u8], w: &[u8], row: usize, q: usize, rows: usize, fcs: bool) -> Verdict
    requires { JudgePre file.now w.now row q rows }
    ensures { VerdictIs fcs file.now w.now row (3 * q) rows result }
{
    let p = read_pdu(file, w, row);
    if asks(p) {
        return Verdict::Asks;
    }
    if is_tried(w, q, rows, p.side, p.cid) {
        return judge_frame(p, fcs);
    }
    Verdict::Passed
}
