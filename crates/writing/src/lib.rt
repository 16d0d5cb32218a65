// The list of the spans of one DLCI written, once they are counted.
#![tactic(auto)]

ghost use Rattle.std.specs.Prelude.{◌≡◌, ◌-◌, ◌%◌, take, drop};
ghost use Rattle.std.proofs.lemmas.List.Edits.{sets};
ghost use Rattle.laws.specs.Stores.{Writes};
ghost use Rattle.items.specs.Items.{span_list};
ghost use Rattle.spans.specs.Spans.{spans};
ghost use Rattle.split.specs.Last.{lastn};
ghost use Rattle.split.specs.Rows.{bytes_at, stream_to, all};
ghost use Rattle.writing.specs.Writing.{items_of, items_from, WritePre, FirstOut, FirstWrote, RestPre, ClosePre, closed_item, ListPre};

use items::put_head;
use spans::{begins, write_part};
use split::{Pieces, Table};
use words::{part, put_le};

// Writes the span of the h bytes held and the first k bytes of piece i.
// Stays: piece, output and place side by side here and below, since each step gives the next another place. The piece is its number beside the view:
// in a view of one piece it would be taken out again for each of the view's methods, which go to other pieces of the key too.
fn write_closed(s: Pieces, i: usize, out: &mut [u8], at: usize, h: usize, k: usize) -> usize
    requires { ClosePre s.file.now s.w.now s.plan i out.old at h k }
    ensures { Writes out.old at (closed_item s.entry.file.now s.entry.w.now s.entry.plan i h k) result out.new }
{
    let time = put_head(out, at, s.direction_of(i).kind(), 8 + h + k);
    let body = put_le(out, time, s.time_of(i), 8);
    s.gather(i, h, out, body);
    let rest = body + h;
    s.put_part(i, 0, k, out, rest);
    rest + k
}

// Where the list goes on, and from where on in the piece.
#[derive(Clone, Copy)]
struct Onward {
    at: usize,
    skip: usize,
}

// Writes the span that the first 3C of piece i closes, at e.
fn write_first(s: Pieces, i: usize, out: &mut [u8], at: usize, e: usize) -> Onward
    requires { FirstOut s.file.now s.w.now s.plan i out.old at e }
    ensures { FirstWrote s.entry.file.now s.entry.w.now s.entry.plan i out.old at result out.new }
{
    let h = s.held_before(i);
    if begins(s.piece(i), h) {
        let k = e + 1;
        let to = write_closed(s, i, out, at, h, k);
        return Onward { at: to, skip: k };
    }
    Onward { at, skip: 0 }
}

// Writes the spans of piece i from a place on. What its key holds after it needs no look.
fn write_rest(s: Pieces, i: usize, out: &mut [u8], at: usize, skip: usize) -> usize
    requires { RestPre s.file.now s.w.now s.plan i out.old at skip }
    ensures { Writes out.old at (items_from s.entry.file.now s.entry.w.now s.entry.plan i skip) result out.new }
{
    let n = s.length_of(i) - skip;
    if n == s.held_after(i) {
        return at;
    }
    let direction = s.direction_of(i);
    let ms = s.time_of(i);
    let c = write_part(part(s.piece(i), skip, n), direction, ms, out, at);
    c.at
}

// Writes the spans that piece i brings.
fn write_piece(s: Pieces, i: usize, out: &mut [u8], at: usize) -> usize
    requires { WritePre s.file.now s.w.now s.plan i out.old at }
    ensures { Writes out.old at (items_of s.entry.file.now s.entry.w.now s.entry.plan i) result out.new }
{
    let e = s.end_of(i);
    if e == s.length_of(i) {
        return at;
    }
    let f = write_first(s, i, out, at, e);
    write_rest(s, i, out, f.at, f.skip)
}

// Writes the list of the DLCI's spans, and returns its length.
pub fn write_spans(s: Pieces, out: &mut [u8]) -> usize
    requires { ListPre s.file.now s.w.now s.plan out.old }
    ensures { Writes out.old 0 (span_list (spans (all s.entry.file.now s.entry.w.now s.entry.plan))) result out.new }
{
    let table = Table {
        w: s.w,
        plan: s.plan,
    };
    let mut at = 0;
    for i in 0..s.plan.n {
        if table.dlci_of(i) == s.plan.dlci {
            at = write_piece(s, i, out, at);
        }
    }
    at
}
