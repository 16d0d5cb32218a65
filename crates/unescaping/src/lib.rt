// An escaped part: where escaping is first broken, the byte at a place, storing the bytes that it stands for.
#![tactic(auto)]

ghost use Rattle.std.specs.Prelude.{◌≡◌, ◌+◌, ◌*◌, ◌/◌, ◌≤◌, length, drop, ◌==◌};
ghost use Rattle.laws.specs.Stores.{Writes};
ghost use Rattle.unescaping.specs.Places.{ahead, GotIs, Filled};
ghost use Rattle.unescaping.specs.Flaws.{is_breach, breaches, flaw_of, FrontPart, KeptIf, LastPart, SoundIf, ScannedIs};
ghost use Rattle.unescaping.specs.Pairs.{PairIs, Pair, PairIf, Paired, PairedIf, DenseIf, halves};

use blocks::{copy_block, is_bare, is_within, tally_few};
use mdr::UnpackError;
use words::copy_to;

// ---- where escaping is broken

// Whether a byte is a 3D that is not followed by 2C, 2D or 2E.
fn breaks(b: u8, e: u8) -> bool
    ensures { result ≡ is_breach b e }
{
    b == 0x3D && !is_within::<0x2C, 0x2E>(e)
}

// How many 3D before the last byte are not followed by 2C, 2D or 2E. There is no early way out, so that the loop runs
// on many bytes at once.
// Stays: by two indices, here and by one in is_paired and unpair. windows(2) gives slices, of which two bytes would be read by index again; a zip
// would go through the part and the part after its first byte, and pairs would be cut by chunks: no index less, and a slice more.
fn count_breaks(part: &[u8]) -> u8
    requires in_bounds { 1 ≤ length part.now }
    requires part_len_bound { length part.now ≤ 256 }
    ensures { result ≡ breaches part.now }
{
    let mut found: u8 = 0;
    for i in 0..part.len() - 1 {
        found += u8::from(breaks(part[i], part[i + 1]));
    }
    found
}

// Refuses a part by the first place where escaping is broken.
pub fn first_flaw(s: &[u8]) -> Result<(), UnpackError>
    ensures { result ≡ flaw_of s.now }
{
    let mut bytes = s.iter();
    while let Some(&b) = bytes.next() {
        if b == 0x3D {
            let Some(&e) = bytes.next() else {
                return Err(UnpackError::TrailingSentry);
            };
            if !is_within::<0x2C, 0x2E>(e) {
                return Err(UnpackError::BadEscapee(e));
            }
        }
    }
    Ok(())
}

// Whether no 3D before the last byte of a part breaks escaping; so many stand there.
fn is_kept(part: &[u8], sentries: usize) -> bool
    requires { FrontPart part.now sentries }
    ensures { KeptIf part.now result }
{
    if sentries == 0 {
        return true;
    }
    count_breaks(part) == 0
}

// Whether it is known that no 3D of the last part breaks escaping; so many stand there. A short part is not looked at:
// that goes as quickly byte by byte.
fn is_sound(part: &[u8], sentries: usize) -> bool
    requires { LastPart part.now sentries }
    ensures { SoundIf part.now result }
{
    if sentries == 0 {
        return true;
    }
    let n = part.len();
    if n < 32 {
        return false;
    }
    if part[n - 1] == 0x3D {
        return false;
    }
    count_breaks(part) == 0
}

// What a first look at an escaped part tells: escaping is not broken before the rest, and if it is broken nowhere, these
// are the bytes' sum and how many of them are 3D.
#[derive(Clone, Copy)]
pub struct Scanned<'a> {
    pub sum: u8,
    pub hits: usize,
    pub rest: &'a [u8],
}

// Part by part, up to the first in which escaping is broken. Inlined, so that what it tells does not go through memory.
#[inline(always)]
pub fn scan(s: &[u8]) -> Scanned
    requires { 7 ≤ length s.now }
    ensures { ScannedIs s.now result }
{
    let mut sum: u8 = 0;
    let mut hits: usize = 0;
    let mut rest = s;
    // Stays: each part is looked at with the byte after it, so that parts overlap; chunks do not, and windows(193).step_by(192) would not
    // say what is left, which the last part and the answer need.
    while 192 < rest.len() {
        let t = tally_few::<0x3D, 0x3D>(&rest[..192]);
        if !is_kept(&rest[..193], t.hits) {
            return Scanned { sum, hits, rest };
        }
        sum = sum.wrapping_add(t.sum);
        hits += t.hits;
        rest = &rest[192..];
    }
    let t = tally_few::<0x3D, 0x3D>(rest);
    sum = sum.wrapping_add(t.sum);
    hits += t.hits;
    if is_sound(rest, t.hits) {
        let rest = &rest[rest.len()..];
        return Scanned { sum, hits, rest };
    }
    Scanned { sum, hits, rest }
}

// ---- the bytes that it stands for

// A byte of a sound escaped part, and the place after it.
#[derive(Clone, Copy)]
pub struct Got {
    pub byte: u8,
    pub next: usize,
}

// The byte at a place.
// Stays: get answers a place: if it answers the rest of the slice, fill_few takes 6 instructions a byte; how many bytes were used, 8;
// by the place, 5. Mixed bytes, 32,760 of which take 10,150 ns and took 11,200 at the beginning (PERFORMANCE), would miss that by a fifth more.
pub fn get(s: &[u8], i: usize) -> Got
    requires { 1 ≤ length (ahead (drop i s.now)) }
    ensures { GotIs s.now i result }
{
    let b = s[i];
    if b == 0x3D {
        return Got {
            byte: s[i + 1] + 16,
            next: i + 2,
        };
    }
    Got {
        byte: b,
        next: i + 1,
    }
}

// Stores the first count unescaped bytes at a place, and returns how many bytes stand for them.
pub fn fill_few(s: &[u8], out: &mut [u8], at: usize, count: usize) -> usize
    requires count_in_bounds { count ≤ length (ahead s.now) }
    requires out_in_bounds { at + count ≤ length out.old }
    ensures { Filled s.now out.old at count result out.new }
{
    let mut used = 0;
    for k in 0..count {
        let g = get(s, used);
        out[at + k] = g.byte;
        used = g.next;
    }
    used
}

// The two bytes that follow so many pairs.
fn pair_at(part: &[u8], i: usize) -> u16
    requires { 2 * i + 2 ≤ length part.now }
    ensures { PairIs part.now i result }
{
    u16::from_le_bytes([part[2 * i], part[2 * i + 1]])
}

// Whether a pair is a 3D and what may follow it. A pair is one number, so that a loop runs on many at once.
fn is_pair(w: u16) -> bool
    ensures { PairIf w result }
{
    (w == 0x2C3D) | (w == 0x2D3D) | (w == 0x2E3D)
}

// Whether 32 bytes are sixteen escaped ones. Not inlined: there its loads get mixed up with those of the test for bare bytes.
#[inline(never)]
fn is_paired(part: &[u8]) -> bool
    requires { length part.now ≡ 32 }
    ensures { PairedIf part.now result }
{
    let mut all = true;
    for i in 0..16 {
        all &= is_pair(pair_at(part, i));
    }
    all
}

// The byte that a pair stands for: the second and 16. Adding 4035 makes a 3D 16 times 256.
fn unpaired(w: u16) -> u8
    requires { Pair w }
    ensures { result ≡ w / 256 + 16 }
{
    ((w + 4035) / 256) as u8
}

// Stores the bytes that sixteen pairs stand for: all are loaded before the first is stored.
fn unpair(part: &[u8], out: &mut [u8], at: usize) -> usize
    requires part_len { length part.now ≡ 32 }
    requires paired { Paired part.now }
    requires at_in_bounds { at + 16 ≤ length out.old }
    ensures { Writes out.old at (halves part.now) result out.new }
{
    let mut block = [0u8; 16];
    for i in 0..16 {
        block[i] = unpaired(pair_at(part, i));
    }
    copy_to(&block, out, at)
}

// Whether sixteen escaped bytes stand first; not looked at unless dense.
fn is_dense(s: &[u8], dense: bool) -> bool
    ensures { DenseIf s.now result }
{
    if dense && 32 <= s.len() {
        return is_paired(&s[..32]);
    }
    false
}

// Stores the first sixteen unescaped bytes, and returns how many bytes stand for them. dense: it is worth a look whether
// all of them are escaped.
fn fill_block(s: &[u8], out: &mut [u8], at: usize, dense: bool) -> usize
    requires long { 16 ≤ length (ahead s.now) }
    requires out_in_bounds { at + 16 ≤ length out.old }
    ensures { Filled s.now out.old at 16 result out.new }
{
    if is_dense(s, dense) {
        unpair(&s[..32], out, at);
        return 32;
    }
    let block = &s[..16];
    if is_bare::<0x3D, 0x3D>(block) {
        copy_block(block, out, at);
        return 16;
    }
    fill_few(s, out, at, 16)
}

// Stores the first count unescaped bytes at the front of the output, block by block, and returns how many bytes stand for them.
pub fn fill(s: &[u8], out: &mut [u8], count: usize) -> usize
    requires count_in_bounds { count ≤ length (ahead s.now) }
    requires out_in_bounds { count ≤ length out.old }
    ensures { Filled s.now out.old 0 count result out.new }
{
    let blocks = count / 16;
    let mut used = 0;
    let mut dense = false;
    for b in 0..blocks {
        let more = fill_block(&s[used..], out, 16 * b, dense);
        dense = more == 32;
        used += more;
    }
    used + fill_few(&s[used..], out, 16 * blocks, count % 16)
}
