// Packing: escaping, and a frame's wire.
#![tactic(auto)]

ghost use Rattle.std.specs.Prelude.{◌≡◌, ◌+◌, ◌*◌, ◌/◌, ◌%◌, ◌<◌, ◌≤◌, [], ◌∷◌, ◌++◌, length};
ghost use Rattle.laws.specs.Stores.{Writes};
ghost use Rattle.laws.specs.Answers.{Meets};
ghost use Rattle.mdr.specs.Escaping.{count_in};
ghost use Rattle.mdr.specs.Escape.{escape_byte, escape};
ghost use Rattle.mdr.specs.Frame.{head_of, pack_of};
ghost use Rattle.mdr.specs.Told.{told_packed};
ghost use Rattle.packing.specs.Escapes.{twins, parted, RanIs, MixedIs, framed};

use blocks::{Part, copy_block, is_bare, is_full, is_within, tally, tally_few};
use mdr::PackError;
use words::copy_to;

// ---- escaping

// Stores a byte at a place, escaped if it must be, and returns the place after it.
fn put(out: &mut [u8], at: usize, b: u8) -> usize
    requires { at + length (escape_byte b) ≤ length out.old }
    ensures { Writes out.old at (escape_byte b) result out.new }
{
    if is_within::<0x3C, 0x3E>(b) {
        out[at] = 0x3D;
        out[at + 1] = b - 16;
        return at + 2;
    }
    out[at] = b;
    at + 1
}

fn escape_few(part: &[u8], out: &mut [u8], from: usize) -> usize
    requires { from + length (escape part.now) ≤ length out.old }
    ensures { Writes out.old from (escape part.now) result out.new }
{
    let mut at = from;
    for &b in part {
        at = put(out, at, b);
    }
    at
}

// The escaped forms of sixteen bytes that all are escaped, each as one number, so that a loop runs on many at once.
fn pairs_of(part: &[u8]) -> [u16; 16]
    requires part_len { length part.now ≡ 16 }
    requires part_value { count_in 0x3C 0x3E part.now ≡ length part.now }
    ensures { result ≡ twins part.now }
{
    let mut pairs = [0u16; 16];
    for i in 0..16 {
        pairs[i] = u16::from_le_bytes([0x3D, part[i] - 16]);
    }
    pairs
}

// Stays: two stores and no copy of two bytes, which would be a call.
fn put_pairs(pairs: &[u16], out: &mut [u8], from: usize) -> usize
    requires { from + 2 * length pairs.now ≤ length out.old }
    ensures { Writes out.old from (parted pairs.now) result out.new }
{
    let mut at = from;
    for &w in pairs {
        let [low, high] = w.to_le_bytes();
        out[at] = low;
        out[at + 1] = high;
        at += 2;
    }
    at
}

// Stores the escaped form of sixteen bytes that all are escaped.
fn pair_block(part: &[u8], out: &mut [u8], at: usize) -> usize
    requires part_len { length part.now ≡ 16 }
    requires part_value { count_in 0x3C 0x3E part.now ≡ length part.now }
    requires part_in_bounds { at + length (escape part.now) ≤ length out.old }
    ensures { Writes out.old at (escape part.now) result out.new }
{
    let pairs = pairs_of(part);
    put_pairs(&pairs, out, at)
}

// How many bytes were escaped, and the place after what was written.
#[derive(Clone, Copy)]
struct Ran {
    used: usize,
    at: usize,
}

// Blocks of sixteen in which every byte is escaped, as long as there are such.
// Stays: source, output and place side by side, as in every function that writes here. A struct of them would hold the output as &mut, would
// be made anew for each part, and its contracts would still speak of the output's old and new bytes.
fn escape_run(src: &[u8], out: &mut [u8], from: usize) -> Ran
    requires { from + length (escape src.now) ≤ length out.old }
    ensures { RanIs src.now out.old from result out.new }
{
    let mut used = 0;
    let mut at = from;
    for part in src.chunks_exact(16) {
        if !is_full::<0x3C, 0x3E>(part) {
            return Ran { used, at };
        }
        at = pair_block(part, out, at);
        used += 16;
    }
    Ran { used, at }
}

// The first sixteen bytes, and, if every one of them was escaped, a run after them.
fn escape_mixed(src: &[u8], out: &mut [u8], from: usize) -> Ran
    requires long { 16 ≤ length src.now }
    requires src_in_bounds { from + length (escape src.now) ≤ length out.old }
    ensures { MixedIs src.now out.old from result out.new }
{
    let at = escape_few(&src[..16], out, from);
    if at - from == 32 {
        let r = escape_run(&src[16..], out, at);
        return Ran {
            used: 16 + r.used,
            at: r.at,
        };
    }
    Ran { used: 16, at }
}

// Stores the escaped form at a place, and returns the place after it.
fn escape_at(src: &[u8], out: &mut [u8], from: usize) -> usize
    requires { from + length (escape src.now) ≤ length out.old }
    ensures { Writes out.old from (escape src.now) result out.new }
{
    let mut rest = src;
    let mut at = from;
    while 16 <= rest.len() {
        let block = &rest[..16];
        if is_bare::<0x3C, 0x3E>(block) {
            at = copy_block(block, out, at);
            rest = &rest[16..];
        } else {
            let r = escape_mixed(rest, out, at);
            at = r.at;
            rest = &rest[r.used..];
        }
    }
    escape_few(rest, out, at)
}

// ---- the frame

// A payload, and whether it is known that none of its bytes is escaped.
type Payload<'a> = Part<'a, 0x3C, 0x3E>;

fn write_payload(p: Payload, out: &mut [u8], at: usize) -> usize
    requires { at + length (escape p.bytes.now) ≤ length out.old }
    ensures { Writes out.old at (escape p.entry.bytes.now) result out.new }
{
    if p.bare {
        return copy_to(p.bytes, out, at);
    }
    escape_at(p.bytes, out, at)
}

fn head_of(kind: u8, seq: u8, n: usize) -> [u8; 6]
    ensures { result ≡ head_of kind seq n }
{
    let [_, _, _, _, a, b, c, d] = n.to_be_bytes();
    [kind, seq, a, b, c, d]
}

fn put_byte(out: &mut [u8], at: usize, b: u8) -> usize
    requires { at < length out.old }
    ensures { Writes out.old at (b ∷ []) result out.new }
{
    out[at] = b;
    at + 1
}

fn start_frame(head: &[u8; 6], out: &mut [u8]) -> usize
    requires { 1 + length (escape head.now) ≤ length out.old }
    ensures { Writes out.old 0 (0x3E ∷ escape head.now) result out.new }
{
    let at = put_byte(out, 0, 0x3E);
    escape_few(head, out, at)
}

fn end_frame(sum: u8, out: &mut [u8], from: usize) -> usize
    requires { from + length (escape_byte sum ++ (0x3C ∷ [])) ≤ length out.old }
    ensures { Writes out.old from (escape_byte sum ++ (0x3C ∷ [])) result out.new }
{
    let at = put(out, from, sum);
    put_byte(out, at, 0x3C)
}

fn write_frame(head: &[u8; 6], p: Payload, sum: u8, out: &mut [u8]) -> usize
    requires { length (framed head.now p.bytes.now sum) ≤ length out.old }
    ensures { Writes out.old 0 (framed head.now p.entry.bytes.now sum) result out.new }
{
    let a = start_frame(head, out);
    let b = write_payload(p, out, a);
    end_frame(sum, out, b)
}

// Writes a frame to the front of out.
pub fn pack(kind: u8, seq: u8, payload: &[u8], out: &mut [u8]) -> Result<usize, PackError>
    ensures { Meets (pack_of kind seq payload.now) out.old (told_packed result) out.new }
{
    let n = payload.len();
    if 32760 < n {
        return Err(PackError::TooLong);
    }
    let head = head_of(kind, seq, n);
    let h = tally_few::<0x3C, 0x3E>(&head);
    let t = tally::<0x3C, 0x3E>(payload);
    let sum = h.sum.wrapping_add(t.sum);
    let more = usize::from(is_within::<0x3C, 0x3E>(sum));
    let needed = 9 + n + h.hits + t.hits + more;
    if out.len() < needed {
        return Err(PackError::OutShort(needed));
    }
    let p = Payload {
        bytes: payload,
        bare: t.hits == 0,
    };
    write_frame(&head, p, sum, out);
    Ok(needed)
}
