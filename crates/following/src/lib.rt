// Reassembly followed packet by packet: what the packets show of what is not in the trace, counted, and what is open at the end.
#![tactic(auto)]

ghost use Rattle.std.specs.Prelude.{◌≡◌, eqb, ◌+◌, ◌*◌, ◌/◌, ◌≤◌, length};
ghost use Rattle.words.specs.Words.{word};
ghost use Rattle.packets.specs.PacketTable.{Read};
ghost use Rattle.l2cap.specs.Steps.{row_at, open_in};
ghost use Rattle.following.specs.Showing.{shown_by, Show};
ghost use Rattle.following.specs.Passing.{first_pass, Turn, Turned, RecordTurn, RecordTurned, FollowedTo};

use fragments::{link_packets, starts};
use l2cap::{Tables, look, row_of, run};
use signs::{Gap, lacks_packet, note};
use trace::{Record, Trace};

// Continuations with nothing open, and starts that give up a partial PDU.
#[derive(Clone, Copy, Default)]
pub struct Partial {
    pub stray: Gap,
    pub given_up: Gap,
}

// How many packets are read, the tables of reassembly, and the signs so far.
#[derive(Clone, Copy)]
struct Pass {
    count: usize,
    tables: Tables,
    signs: Partial,
}

// The signs with those of packet i, whose record starts at a place: by what is open before it is read, and whether it starts a PDU.
#[tactic(auto, unfolding(crate::specs::Showing::shown_by))]
fn show(w: &[u8], q: usize, i: usize, at: usize, g: Partial) -> Partial
    requires { Show w.now q i g }
    ensures { result ≡ shown_by (open_in w.now (row_at w.now q i)) (eqb (word w.now (6 * i + 1)) 1) at g }
{
    match (look(w, row_of(w, q, i)), starts(w, i)) {
        (None, false) => Partial {
            stray: note(g.stray, 1, at),
            ..g
        },
        (Some(_), true) => Partial {
            given_up: note(g.given_up, 1, at),
            ..g
        },
        _ => g,
    }
}

// One packet, whose record starts at a place.
fn follow_packet(file: &[u8], w: &mut [u8], at: usize, s: Pass) -> Pass
    requires { Turn file.now w.old (length file.now / 4) s }
    ensures { Turned file.now w.old (length file.now / 4) at s w.new result }
{
    let i = s.count;
    let signs = show(w, file.len() / 4, i, at, s.signs);
    let tables = run(file, w, s.tables, i, i + 1);
    Pass {
        count: i + 1,
        tables,
        signs,
    }
}

// One record: the next packet is in it, or none.
fn follow_record(r: Record, w: &mut [u8], s: Pass) -> Pass
    requires { RecordTurn r w.old s }
    ensures { RecordTurned r.entry w.old s w.new result }
{
    if lacks_packet(r) {
        return s;
    }
    follow_packet(r.trace.file, w, r.at, s)
}

// No packet is read, and there are so many rows of open PDUs.
fn first_pass(q: usize, rows: usize) -> Pass
    requires { q ≤ 1048576 }
    ensures { result ≡ first_pass q rows }
{
    let tables = Tables::begun(q, rows);
    let signs = Partial::default();
    Pass {
        count: 0,
        tables,
        signs,
    }
}

// The signs of all packets, whose table stands at the start of work. Work then has the rows of what is open.
pub fn follow_packets(trace: Trace, w: &mut [u8], count: usize) -> Partial
    requires { Read trace.format trace.file.now w.old count }
    ensures { FollowedTo trace.entry.format trace.entry.file.now count w.new result }
{
    let q = trace.file.len() / 4;
    let rows = link_packets(w, q, count);
    let mut s = first_pass(q, rows);
    for r in trace.records() {
        s = follow_record(r, w, s);
    }
    s.signs
}
