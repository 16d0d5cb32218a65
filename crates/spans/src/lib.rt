// Spans in one buffer: the next one, how many there are and what their list takes, the list itself, and what is left.
#![tactic(auto)]

ghost use Rattle.std.specs.Prelude.{◌≡◌, ◌+◌, ◌*◌, ◌≤◌, ◌<◌, length, drop};
ghost use Rattle.items.specs.Items.{rx_of};
ghost use Rattle.search.specs.Seek.{seek};
ghost use Rattle.spans.specs.Parts.{NextIs, Room, tally_one, CountedIs, WritePre, WroteIs};
ghost use Rattle.spans.specs.Scans.{Begins, ScanPre, AddedIs, FirstPre, FirstIs, FromPre, OpenPre, OpenIs, ScannedIs};

use items::{Direction, put_span};
use search::{find, find_few, find_soon};
use unpacking::unpacks;

// ---- the first 3C

// The place of the first 3C; the length, if there is none. A piece often ends with its only 3C, and then no place is looked
// for in a block.
// Stays: the length for none, as search::find says it and as a word of each piece keeps it: an Option would be made of the one and turned into
// the other.
pub fn first_end(s: &[u8]) -> usize
    ensures { result ≡ seek 0x3C s.now }
{
    if s.len() < 16 {
        return find_few(s, 0x3C);
    }
    find(s.strip_suffix(&[0x3C]).unwrap_or(s), 0x3C)
}

// ---- the walk

// The walk through the spans of a buffer: what of it is still to be looked at, and after the last span what is left.
// Stays: no Iterator, though it proves as one: callers need what is left after the walk, and `for` over `&mut spans` (tried) says nothing of it.
// trace::Reader is one, since nothing is asked of a reader after `for r in trace.records()`.
#[derive(Clone, Copy)]
pub struct Spans<'a> {
    pub rest: &'a [u8],
}

impl<'a> Spans<'a> {
    // The next span.
    pub fn next(&mut self) -> Option<&'a [u8]>
        ensures { NextIs self.old.rest.now result self.new.rest.now }
    {
        let begun = &self.rest[find_soon::<2>(self.rest, 0x3E)..];
        let end = find_soon::<2>(begun, 0x3C);
        if end == begun.len() {
            self.rest = begun;
            return None;
        }
        let (span, rest) = begun.split_at(end + 1);
        self.rest = rest;
        Some(span)
    }
}

// ---- counting

// What is counted of spans: how many, the bytes of their list, and how many are known to unpack. Once one does, no other is tried.
// Stays: frames is a word and no bool, whose padding was copied with it for each piece: import of a typical MiB took 9.90 million
// instructions and 1,510 us, and takes 9.45 and 1,320. The bar is docs/PERFORMANCE.md's 9,913,279 instructions for the typical MiB before.
#[derive(Clone, Copy, Default)]
pub struct Tally {
    pub count: usize,
    pub bytes: usize,
    pub frames: usize,
}

// What is counted of a buffer, and how long the rest of it is.
#[derive(Clone, Copy)]
pub struct Counted {
    pub tally: Tally,
    pub rest: usize,
}

// One span more.
fn add_span(t: Tally, wire: &[u8]) -> Tally
    requires { Room t (length wire.now) }
    ensures { result ≡ tally_one t wire.now }
{
    Tally {
        count: t.count + 1,
        bytes: t.bytes + 14 + wire.len(),
        frames: if t.frames == 0 {
            usize::from(unpacks(wire))
        } else {
            t.frames
        },
    }
}

// Counts the spans of a buffer.
pub fn count_part(buffer: &[u8], t: Tally) -> Counted
    requires { Room t (length buffer.now) }
    ensures { CountedIs buffer.now t result }
{
    let mut sum = t;
    let mut spans = Spans { rest: buffer };
    while let Some(wire) = spans.next() {
        sum = add_span(sum, wire);
    }
    Counted {
        tally: sum,
        rest: spans.rest.len(),
    }
}

// ---- a part behind what is held
// Stays: part and h side by side: h is a length, of bytes that lie elsewhere; begins and scan are public with the two, and of a struct for the
// others scan alone would be the maker.

// What a scan of a part finds: the spans counted, the place of its first 3C or its length, and how long the rest is.
#[derive(Clone, Copy)]
pub struct Scanned {
    pub tally: Tally,
    pub end: usize,
    pub rest: usize,
}

// The spans counted when the first is, and how many bytes are passed by then.
#[derive(Clone, Copy)]
struct First {
    tally: Tally,
    skip: usize,
}

// Whether a part with a 3C begins a span or goes on with one: behind h bytes held it goes on.
pub fn begins(part: &[u8], h: usize) -> bool
    requires { 0 < length part.now }
    ensures { Begins part.now h result }
{
    0 < h || part[0] == 0x3E
}

// One span more, of h bytes held and a part behind them.
fn add_behind(t: Tally, h: usize, part: &[u8]) -> Tally
    requires { ScanPre part.now h t }
    ensures { AddedIs part.now h t result }
{
    if 0 < t.frames {
        return Tally {
            count: t.count + 1,
            bytes: t.bytes + 14 + h + part.len(),
            ..t
        };
    }
    add_span(t, part)
}

// Counts the span that the first 3C closes, at e.
fn count_first(part: &[u8], h: usize, t: Tally, e: usize) -> First
    requires { FirstPre part.now h t e }
    ensures { FirstIs part.now h t result }
{
    if begins(part, h) {
        let k = e + 1;
        let sum = add_behind(t, h, &part[0..k]);
        return First {
            tally: sum,
            skip: k,
        };
    }
    First { tally: t, skip: 0 }
}

// Counts the spans of a part from a place on.
fn count_from(part: &[u8], skip: usize, t: Tally) -> Counted
    requires { FromPre part.now skip t }
    ensures { CountedIs (drop skip part.now) t result }
{
    if skip == part.len() {
        return Counted { tally: t, rest: 0 };
    }
    count_part(&part[skip..], t)
}

// How long the rest is of h bytes held and a part with no 3C.
fn open_rest(part: &[u8], h: usize) -> usize
    requires { OpenPre part.now h }
    ensures { OpenIs part.now h result }
{
    let n = part.len();
    if 0 < h {
        return h + n;
    }
    n - find_soon::<2>(part, 0x3E)
}

// Counts the spans of h bytes held and a part behind them. If something is held, a span has unpacked before, so that
// lengths are enough.
pub fn scan(part: &[u8], h: usize, t: Tally) -> Scanned
    requires { ScanPre part.now h t }
    ensures { ScannedIs part.now h t result }
{
    let e = first_end(part);
    if e == part.len() {
        return Scanned {
            tally: t,
            end: e,
            rest: open_rest(part, h),
        };
    }
    let f = count_first(part, h, t, e);
    let c = count_from(part, f.skip, f.tally);
    Scanned {
        tally: c.tally,
        end: e,
        rest: c.rest,
    }
}

// ---- writing

// Where the list goes on, and how long the rest of the buffer is.
// Stays: no code reads rest; write_part is public and promises it, and a public function promises no less than it did.
#[derive(Clone, Copy)]
pub struct Wrote {
    pub at: usize,
    pub rest: usize,
}

// Writes the spans of a buffer as items.
pub fn write_part(buffer: &[u8], direction: Direction, ms: u64, out: &mut [u8], at: usize) -> Wrote
    requires { WritePre buffer.now (rx_of direction) ms out.old at }
    ensures { WroteIs buffer.now (rx_of direction) ms out.old at result out.new }
{
    let mut to = at;
    let mut spans = Spans { rest: buffer };
    while let Some(wire) = spans.next() {
        to = put_span(out, to, direction, ms, wire);
    }
    Wrote {
        at: to,
        rest: spans.rest.len(),
    }
}
