// A DLCI, chosen or given, with what is counted of it; and the list of its spans, which is written once there is room for it.
#![tactic(auto)]

ghost use Rattle.std.specs.Prelude.{◌≡◌, ◌*◌, ◌/◌, ◌≤◌, ◌<◌};
ghost use Rattle.outcome.specs.Import.{on_channel};
ghost use Rattle.laws.specs.Stores.{Writes};
ghost use Rattle.streams.specs.Streams.{channel_of, plan_of, Tabled, Ready, Accountable, stream_summed, Chooses, ChoosesStream, CountsStream, kept_list, WriteListPre};

use measuring::{Sums, count_spans};
use split::{Pieces, Plan, link_pieces};
use words::get32;
use writing::write_spans;

// A DLCI with what is counted of it: its spans, the bytes of their list, its buffers that are not empty at the end, and where
// the bytes of its pieces went.
#[derive(Clone, Copy)]
pub struct Stream {
    pub dlci: u8,
    pub spans: usize,
    pub bytes: usize,
    pub unfinished: usize,
    pub in_spans: usize,
    pub dropped: usize,
    pub cleared: usize,
    pub left: usize,
}

// Whether the channel, if one is given, is the DLCI divided by 2.
#[tactic(auto, unfolding(outcome::specs::Import::on_channel, crate::specs::Streams::channel_of))]
fn on_channel(channel: Option<u8>, dlci: u32) -> bool
    ensures { result ≡ on_channel (channel_of channel) dlci }
{
    channel.is_none_or(|c| dlci / 2 == c as u32)
}

// Where the tables lie in work, for a file of 4 * q bytes or a little more.
#[tactic(auto, unfolding(crate::specs::Streams::plan_of))]
pub fn plan(q: usize, n: usize, dlci: u32) -> Plan
    requires { (q ≤ 1048576) × (n ≤ 1048576) }
    ensures { result ≡ plan_of q n dlci }
{
    Plan {
        rows: 5 * q,
        n,
        chain: 6 * q,
        held: 6 * q + n,
        ends: 6 * q + 2 * n,
        area: 28 * q,
        dlci,
    }
}

// A DLCI with what is counted of it. In spans is what their list has beside the 14 bytes before each wire; dropped is what of the
// bytes taken in is in no span, was not cleared and is not left.
#[tactic(auto, unfolding(crate::specs::Streams::stream_summed))]
fn stream_of(dlci: u32, s: Sums) -> Stream
    requires { Accountable dlci s }
    ensures { result ≡ stream_summed dlci s }
{
    let t = s.tally;
    let in_spans = t.bytes - 14 * t.count;
    Stream {
        dlci: dlci as u8,
        spans: t.count,
        bytes: t.bytes,
        unfinished: s.unfinished,
        in_spans,
        dropped: s.taken - in_spans - s.cleared - s.left,
        cleared: s.cleared,
        left: s.left,
    }
}

// The first DLCI seen, on the channel, that has a span which unpacks.
pub fn choose_dlci(file: &[u8], w: &mut [u8], n: usize, channel: Option<u8>) -> Option<Stream>
    requires { Ready file.now w.old n }
    ensures { Chooses file.now w.old n channel w.new result }
{
    let q = file.len() / 4;
    let mut tried = [false; 64];
    for i in 0..n {
        let d = get32(w, 5 * q + 8 * i);
        let k = d as usize;
        if !on_channel(channel, d) || tried[k] {
            continue;
        }
        tried[k] = true;
        let p = plan(q, n, d);
        let s = count_spans(file, w, p);
        if 0 < s.tally.frames {
            return Some(stream_of(d, s));
        }
    }
    None
}

// Links the n pieces in the table, and chooses. Work keeps what was counted of the DLCI chosen, by which its list is written.
pub fn choose_stream(file: &[u8], w: &mut [u8], n: usize, channel: Option<u8>) -> Option<Stream>
    requires { Tabled file.now w.old n }
    ensures { ChoosesStream file.now w.old n channel w.new result }
{
    let q = file.len() / 4;
    let all = plan(q, n, 0);
    link_pieces(w, all, 7 * q);
    choose_dlci(file, w, n, channel)
}

// Links the n pieces in the table, and counts those of one DLCI. Work keeps what was counted, by which their list is written.
pub fn count_stream(file: &[u8], w: &mut [u8], n: usize, dlci: u8) -> Stream
    requires { Tabled file.now w.old n }
    ensures { CountsStream file.now w.old n dlci w.new result }
{
    let q = file.len() / 4;
    let all = plan(q, n, 0);
    link_pieces(w, all, 7 * q);
    let d = dlci as u32;
    let p = plan(q, n, d);
    let s = count_spans(file, w, p);
    stream_of(d, s)
}

// Writes the list of the spans of the DLCI chosen, or counted, and returns its length.
pub fn write_list(file: &[u8], w: &[u8], n: usize, dlci: u8, out: &mut [u8]) -> usize
    requires { WriteListPre file.now w.now n dlci out.old }
    ensures { Writes out.old 0 (kept_list file.now w.now n dlci) result out.new }
{
    let p = plan(file.len() / 4, n, dlci as u32);
    write_spans(Pieces { file, w, plan: p }, out)
}
