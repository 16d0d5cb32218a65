// What is open at the end of a trace: the packets that began it, counted in one walk over the records.
#![tactic(auto)]

ghost use Rattle.std.specs.Prelude.{◌≡◌, length};
ghost use Rattle.trace.specs.Formats.{packet_by};
ghost use Rattle.trace.specs.Finding.{bytes_of};
ghost use Rattle.l2cap.specs.Steps.{open_in, row_at};
ghost use Rattle.signs.specs.Places.{packets_at};
ghost use Rattle.signs.specs.Partial.{left_open};
ghost use Rattle.signs.specs.Recorded.{is_none};
ghost use Rattle.signs.specs.Counting.{Counted};
ghost use Rattle.signs.specs.Following.{Followed};
ghost use Rattle.leftover.specs.Meeting.{began_by, counted_at, met_at, BeganPre, CountPre, MeetPre};

use l2cap::{look, row_of};
use signs::{Gap, lacks_packet, note};
use trace::{Record, Trace};

// The packets met so far, and those of them that began what is open at the end.
#[derive(Clone, Copy, Default)]
struct Met {
    packets: usize,
    left: Gap,
}

// Whether packet i began what is open under its key at the end.
// Stays: w and q side by side, here and below. They go together to `row_of`, and a struct of both would be made once to be taken apart here.
#[tactic(auto, unfolding(crate::specs::Meeting::began_by))]
fn began(w: &[u8], q: usize, i: usize) -> bool
    requires { BeganPre w.now q i }
    ensures { result ≡ began_by (open_in w.now (row_at w.now q i)) i }
{
    matches!(look(w, row_of(w, q, i)), Some(open) if open.first == i)
}

// Packet i, in the record at a place: it counts if it began what is open at the end.
#[tactic(auto, unfolding(crate::specs::Meeting::counted_at))]
fn count_packet(w: &[u8], q: usize, i: usize, g: Gap, at: usize) -> Gap
    requires { CountPre w.now q i g }
    ensures { result ≡ counted_at w.now q i g at }
{
    if began(w, q, i) {
        return note(g, 1, at);
    }
    g
}

// A record. Only a packet takes the next number.
#[tactic(auto, unfolding(crate::specs::Meeting::met_at))]
fn meet(r: Record, w: &[u8], q: usize, m: Met) -> Met
    requires { MeetPre r w.now q m }
    ensures { result ≡ met_at w.now q r.entry.at m (is_none (packet_by r.entry.trace.format (bytes_of r.entry))) }
{
    if lacks_packet(r) {
        return m;
    }
    Met {
        packets: m.packets + 1,
        left: count_packet(w, q, m.packets, m.left, r.at),
    }
}

// The PDUs that are open at the end: how many, and where the record starts that holds the first packet of the first.
pub fn left_open(trace: Trace, w: &[u8]) -> Gap
    requires { Followed trace.format trace.file.now w.now (length (packets_at trace.format trace.file.now)) }
    ensures { Counted (left_open (packets_at trace.entry.format trace.entry.file.now)) result }
{
    let q = trace.file.len() / 4;
    let mut m = Met::default();
    for r in trace.records() {
        m = meet(r, w, q, m);
    }
    m.left
}
