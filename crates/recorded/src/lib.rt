// What the whole records of a trace show of what is not in it, in one pass.
#![tactic(auto)]

ghost use Rattle.std.specs.Prelude.{◌≡◌};
ghost use Rattle.trace.specs.Finding.{bytes_of};
ghost use Rattle.signs.specs.Recorded.{is_short, is_skipped, is_zeros, drops};
ghost use Rattle.signs.specs.Gaps.{record_gaps};
ghost use Rattle.recorded.specs.Looking.{recorded_of, Readable, noted_if, GapPre, Risen, Bounded, Looks};

use signs::{Gap, is_acl, lacks_packet, note};
use trace::{Format, Record, Trace};
use words::get_be32;

// The signs: records stored short, the recorder's drops, ACL packets skipped because data is not there, records of zeros.
#[derive(Clone, Copy, Default)]
pub struct Recorded {
    pub short: Gap,
    pub dropped: Gap,
    pub skipped: Gap,
    pub zeros: Gap,
}

// The signs up to a place, and the recorder's count in the last record before it.
#[derive(Clone, Copy, Default)]
struct Seen {
    signs: Recorded,
    last: u32,
}

// Whether a record is stored short.
#[tactic(auto, unfolding(signs::specs::Recorded::is_short))]
fn is_short(r: Record) -> bool
    ensures { result ≡ is_short r.entry.trace.format (bytes_of r.entry) }
{
    let bytes = r.bytes();
    match r.trace.format {
        Format::Btsnoop(_) => get_be32(bytes, 4) < get_be32(bytes, 0),
        Format::Pcap(e) => e.number(bytes, 8) < e.number(bytes, 12),
    }
}

// The packets that the recorder dropped up to a record. A pcap file does not say.
// Stays: 0 and no Option for a pcap file. The definition has 0 there, a count that never rises, and an Option would be made 0 in `look_at`.
#[tactic(auto, unfolding(signs::specs::Recorded::drops))]
fn drops_of(r: Record) -> u32
    ensures { result ≡ drops r.entry.trace.format (bytes_of r.entry) }
{
    match r.trace.format {
        Format::Btsnoop(_) => get_be32(r.bytes(), 12),
        Format::Pcap(_) => 0,
    }
}

// Whether it is ACL data and holds no packet that import takes.
#[tactic(auto, unfolding(signs::specs::Recorded::is_skipped))]
fn is_skipped(r: Record) -> bool
    ensures { result ≡ is_skipped r.entry.trace.format (bytes_of r.entry) }
{
    is_acl(r) && lacks_packet(r)
}

// Whether it is zeros only.
fn is_zeros(bytes: &[u8]) -> bool
    ensures { result ≡ is_zeros bytes.now }
{
    bytes.iter().all(|&b| b == 0)
}

// A sign that comes once more, at a place, if the record there shows it.
#[tactic(auto, unfolding(crate::specs::Looking::noted_if))]
fn note_if(shows: bool, g: Gap, at: usize) -> Gap
    requires { GapPre g }
    ensures { result ≡ noted_if shows g at }
{
    if shows {
        return note(g, 1, at);
    }
    g
}

// The recorder's drops with those that the record at a place shows: as many as its count is over the one before.
#[tactic(auto, unfolding(crate::specs::Looking::noted_rise, signs::specs::Counting::noted))]
fn note_rise(before: u32, here: u32, g: Gap, at: usize) -> Gap
    requires { GapPre g }
    ensures { Risen before here g at result }
{
    if before < here {
        let by = here - before;
        return note(g, by as u64, at);
    }
    g
}

// The signs with those of a record.
fn look_at(r: Record, s: Seen) -> Seen
    requires { Bounded s r.at }
    ensures { Looks r.entry s result }
{
    let here = drops_of(r);
    let signs = Recorded {
        short: note_if(is_short(r), s.signs.short, r.at),
        dropped: note_rise(s.last, here, s.signs.dropped, r.at),
        skipped: note_if(is_skipped(r), s.signs.skipped, r.at),
        zeros: note_if(is_zeros(r.bytes()), s.signs.zeros, r.at),
    };
    Seen { signs, last: here }
}

// What the trace's whole records show: stored short, the recorder's drops, ACL packets skipped, records of zeros.
pub fn record_signs(trace: Trace) -> Recorded
    requires { Readable trace.file.now }
    ensures { recorded_of result ≡ record_gaps trace.entry.format trace.entry.file.now }
{
    let mut s = Seen::default();
    for r in trace.records() {
        s = look_at(r, s);
    }
    s.signs
}
