// The ACL packets of a trace's whole records, in a table at the start of work.
#![tactic(auto)]

ghost use Rattle.std.specs.Prelude.{◌≡◌, ◌+◌, ◌*◌, ◌/◌, ◌≤◌, length, drop};
ghost use Rattle.trace.specs.Formats.{time_by};
ghost use Rattle.trace.specs.Walk.{is_empty};
ghost use Rattle.packets.specs.Adding.{RecordIs, is_asked, put_packet, AddPre, Added, Passed, ReadPre, ReadTo};

use acl::{Excerpt, Fragment};
use trace::{Format, Record, Trace, record_head};
use words::{put32, put64};

// The packet of a record.
fn read_packet(r: Record) -> Option<Fragment>
    ensures { RecordIs r.entry result }
{
    let bytes = Excerpt {
        bytes: r.bytes(),
        place: r.at,
    };
    match r.trace.format {
        Format::Btsnoop(datalink) => btsnoop::read_packet(bytes, datalink),
        Format::Pcap(_) => pcap::read_packet(bytes),
    }
}

// The milliseconds of a record.
fn time_of(r: Record) -> u64
    ensures { result ≡ time_by r.entry.trace.format (drop r.entry.at r.entry.trace.file.now) }
{
    let file = r.trace.file;
    match r.trace.format {
        Format::Btsnoop(_) => btsnoop::time_at(file, r.at),
        Format::Pcap(e) => pcap::time_at(file, r.at, e),
    }
}

// Writes packet number i of the table.
fn put_packet(w: &mut [u8], i: usize, g: Fragment, ms: u64)
    requires { 24 * i + 24 ≤ length w.old }
    ensures { w.new ≡ put_packet w.old i g ms }
{
    let at = 6 * i;
    put32(w, at, g.key);
    put32(w, at + 1, u32::from(g.start));
    put32(w, at + 2, g.place);
    put32(w, at + 3, g.len);
    put64(w, at + 4, ms);
}

// Whether a packet is asked for: its link is the one, or none is named.
#[tactic(auto, unfolding(crate::specs::Adding::is_asked))]
fn is_asked(only: Option<u32>, link: u32) -> bool
    ensures { result ≡ is_asked only link }
{
    only.is_none_or(|l| link == l)
}

// Adds the packet of a record to the table, if there is one and it is asked for, and returns the count of packets.
fn add_packet(r: Record, w: &mut [u8], only: Option<u32>, count: usize) -> usize
    requires { AddPre r w.old count }
    ensures { Added r.entry w.old only count w.new result }
{
    let Some(g) = read_packet(r) else {
        return count;
    };
    if !is_asked(only, g.key / 2) {
        return count;
    }
    let ms = time_of(r);
    put_packet(w, count, g, ms);
    count + 1
}

// What reading a file finds: how many packets of those asked for, how many whole records, and where the first record starts that passes the end.
#[derive(Clone, Copy)]
pub struct Packets {
    pub count: usize,
    pub records: usize,
    pub tail: usize,
}

// Whether a whole record without bytes stands at a place.
fn is_empty(trace: Trace, at: usize) -> bool
    requires { at ≤ length trace.file.now }
    ensures { result ≡ is_empty trace.entry.format (drop at trace.entry.file.now) }
{
    let head = record_head(trace.format);
    if trace.file.len() - at < head {
        return false;
    }
    trace.size_at(at) == head
}

// Records without bytes, one after another: where they end, and how many they are.
#[derive(Clone, Copy)]
struct Empty {
    end: usize,
    count: usize,
}

// Passes the records without bytes that stand at a place: they hold no packets, but count as records.
fn pass_empty(trace: Trace, at: usize) -> Empty
    requires { at ≤ length trace.file.now }
    ensures { Passed trace.entry.format trace.entry.file.now at result }
{
    let head = record_head(trace.format);
    let mut i = at;
    let mut count = 0;
    // Stays: moved by hand; each is as long as the first, so the next place waits for no length that is read, as that of a reader does (docs/DECISIONS.md).
    // A `for` over `step_by(head)` would return from within, before an answer that is never given; a count by `take_while` would need the place made of it by a product.
    while is_empty(trace, i) {
        i += head;
        count += 1;
    }
    Empty { end: i, count }
}

// Reads the packets of the trace's whole records, of one link if it is named, into the table at the start of work, by a reader, and counts these
// packets and the records.
pub fn read_packets(trace: Trace, w: &mut [u8], only: Option<u32>) -> Packets
    requires { ReadPre trace.format trace.file.now w.old }
    ensures { ReadTo trace.entry.format trace.entry.file.now only w.new result }
{
    let head = record_head(trace.format);
    let mut records = trace.records();
    let mut count = 0;
    let mut whole = 0;
    while let Some(r) = records.next() {
        whole += 1;
        if r.end == r.at + head {
            let passed = pass_empty(trace, r.end);
            whole += passed.count;
            records = records.moved(passed.end);
        } else {
            count = add_packet(r, w, only, count);
        }
    }
    Packets {
        count,
        records: whole,
        tail: records.at,
    }
}
