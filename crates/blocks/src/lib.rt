// Some bytes at once: their sum, how many lie between two values, whether none or all do, storing them elsewhere.
#![tactic(auto)]

ghost use Rattle.std.specs.Prelude.{◌≡◌, ◌+◌, ◌≤◌, length};
ghost use Rattle.laws.specs.Stores.{Writes};
ghost use Rattle.mdr.specs.Sum.{checksum_of};
ghost use Rattle.mdr.specs.Escape.{within};
ghost use Rattle.blocks.specs.Blocks.{Tallied, AllAre, Bare, Full};

use words::copy_to;

// ---- sums and counts

// Whether a byte lies between two values.
pub fn is_within<const LO: u8, const HI: u8>(b: u8) -> bool
    ensures { result ≡ within LO HI b }
{
    LO <= b && b <= HI
}

// The sum of some bytes, wrapping in eight bits, and how many of them lie between two values.
#[derive(Clone, Copy)]
pub struct Totals {
    pub sum: u8,
    pub hits: usize,
}

// Few enough that the count fits a byte, so that the loop runs on bytes alone.
pub fn tally_few<const LO: u8, const HI: u8>(part: &[u8]) -> Totals
    requires { length part.now ≤ 255 }
    ensures { Tallied part.now LO HI result }
{
    let mut sum: u8 = 0;
    let mut hits: u8 = 0;
    for &b in part {
        sum = sum.wrapping_add(b);
        hits += u8::from(is_within::<LO, HI>(b));
    }
    Totals {
        sum,
        hits: hits as usize,
    }
}

// Any number of bytes, part by part.
pub fn tally<const LO: u8, const HI: u8>(s: &[u8]) -> Totals
    ensures { Tallied s.now LO HI result }
{
    let mut sum: u8 = 0;
    let mut hits: usize = 0;
    for part in s.chunks(192) {
        let t = tally_few::<LO, HI>(part);
        sum = sum.wrapping_add(t.sum);
        hits += t.hits;
    }
    Totals { sum, hits }
}

// Whether all bytes are as asked: between two values, or not. There is no early way out, so that the loop runs on many
// bytes at once.
// Stays: no Iterator::all, which ends at the first and so looks at one byte in a turn: 32,760 bare bytes are unpacked in 2,047 ns (PERFORMANCE),
// 16 in each. Whether inside or not is a value, since is_bare and is_full differ in it alone.
fn all_are<const LO: u8, const HI: u8>(part: &[u8], inside: bool) -> bool
    ensures { AllAre inside LO HI part.now result }
{
    let mut all = true;
    for &b in part {
        all &= is_within::<LO, HI>(b) == inside;
    }
    all
}

// Whether no byte lies between two values.
pub fn is_bare<const LO: u8, const HI: u8>(part: &[u8]) -> bool
    ensures { Bare LO HI part.now result }
{
    all_are::<LO, HI>(part, false)
}

// Whether every byte lies between two values.
pub fn is_full<const LO: u8, const HI: u8>(part: &[u8]) -> bool
    ensures { Full LO HI part.now result }
{
    all_are::<LO, HI>(part, true)
}

// Some bytes, and whether it is known that none of them lies between two values.
#[derive(Clone, Copy)]
pub struct Part<'a, const LO: u8, const HI: u8> {
    pub bytes: &'a [u8],
    pub bare: bool,
    pub ghost unescaped: { Bare LO HI bytes.now bare },
}

// The sum of the bytes, wrapping in eight bits.
pub fn checksum(bytes: &[u8]) -> u8
    ensures { result ≡ checksum_of bytes.now }
{
    let mut sum: u8 = 0;
    for &b in bytes {
        sum = sum.wrapping_add(b);
    }
    sum
}

// ---- storing

// Sixteen bytes at once: all are loaded before the first is stored.
// Stays: a slice of 16, here and in packing, and of 32 in unescaping. first_chunk gives an Option and try_into a Result: unescaping::fill_block and
// packing::escape_mixed know of the bytes, and would have a case that cannot come. packing::escape_at asks for 16 first, and goes on over the rest
// by as many as were used, 16 or more, so that the tail of split_first_chunk would serve one of its two ways.
// Inlined always: where the length is known, a copy is one move.
#[inline(always)]
pub fn copy_block(part: &[u8], out: &mut [u8], at: usize) -> usize
    requires part_len { length part.now ≡ 16 }
    requires at_in_bounds { at + 16 ≤ length out.old }
    ensures { Writes out.old at part.now result out.new }
{
    let mut block = [0u8; 16];
    copy_to(part, &mut block, 0);
    copy_to(&block, out, at)
}
