// A sample: its cases read, and an answer compared. What lies past the end of the file reads as 0, a part that is not all
// there is empty, and a case is whole if its end lies in the file.
#![tactic(auto)]

ghost use Rattle.std.specs.Prelude.{◌≡◌, ◌≤◌, ◌<◌, ◌*◌, length, get_or, take, drop, true};
ghost use Rattle.samples.specs.Places.{word_at, long_at, part_at, op_of, counted_at, bytes_of, numbers_size, second_at, IsCall, call_end, IsAnswer, answer_end, IsCase};
ghost use Rattle.samples.specs.Samples.{untouched_of, Fresh, Untouched, Holds, Compared};

// How many bytes a sample takes at most.
pub const ROOM: usize = 262144;

// ---- what stands at a place

pub fn byte(s: &[u8], at: usize) -> u8
    ensures { result ≡ get_or s.now at 0 }
{
    s.get(at).copied().unwrap_or(0)
}

// The bytes from a place on, of which there are none past the end.
fn tail(s: &[u8], at: usize) -> &[u8]
    ensures { result.now ≡ drop at s.now }
{
    s.get(at..).unwrap_or_default()
}

// The 32-bit number at a place.
#[tactic(auto, unfolding(crate::specs::Places::word_at, laws::specs::Numbers::le32))]
pub fn word(s: &[u8], at: usize) -> u32
    ensures { result ≡ word_at s.now at }
{
    tail(s, at)
        .first_chunk()
        .copied()
        .map_or(0, u32::from_le_bytes)
}

// The 64-bit number at a place.
// Stays: word and long differ in their width: from_le_bytes belongs to no trait (words::get_be64).
#[tactic(auto, unfolding(crate::specs::Places::long_at, laws::specs::Numbers::le64, laws::specs::Numbers::le32))]
pub fn long(s: &[u8], at: usize) -> u64
    ensures { result ≡ long_at s.now at }
{
    tail(s, at)
        .first_chunk()
        .copied()
        .map_or(0, u64::from_le_bytes)
}

// So many bytes at a place, or none if they are not all there.
#[tactic(auto, unfolding(crate::specs::Places::part_at))]
pub fn part(s: &[u8], at: usize, size: usize) -> &[u8]
    ensures { result.now ≡ part_at s.now at size }
{
    tail(s, at).get(..size).unwrap_or_default()
}

// So many bytes at a place, or those that are there.
fn front(s: &[u8], at: usize, size: usize) -> &[u8]
    ensures { result.now ≡ take size (drop at s.now) }
{
    let rest = tail(s, at);
    rest.get(..size).unwrap_or(rest)
}

// Bytes with their length before them, and the place after them.
#[tactic(auto, unfolding(crate::specs::Places::counted_at))]
fn read_counted(s: &[u8], at: usize) -> (&[u8], usize)
    ensures bytes { result.0.now ≡ bytes_of s.now (counted_at s.now at) }
    ensures end { result.1 ≡ (counted_at s.now at).end }
    ensures ahead { at ≤ result.1 }
{
    let start = at.saturating_add(4);
    let size = word(s, at) as usize;
    (part(s, start, size), start.saturating_add(size))
}

// ---- cases

// Which call a case runs.
#[derive(Clone, Copy)]
pub enum Op {
    Unpack,
    Pack,
    FixtureName,
    IsCommandName,
    Plan,
    CaptureOrder,
    ImportStrict,
    Import,
}

// The call that a byte names, if it names one.
#[tactic(auto, unfolding(crate::specs::Places::op_of))]
fn op_of(byte: u8) -> Option<Op>
    ensures { result ≡ op_of byte }
{
    match byte {
        1 => Some(Op::Unpack),
        2 => Some(Op::Pack),
        3 => Some(Op::FixtureName),
        4 => Some(Op::IsCommandName),
        5 => Some(Op::Plan),
        6 => Some(Op::CaptureOrder),
        7 => Some(Op::ImportStrict),
        8 => Some(Op::Import),
        _ => None,
    }
}

#[derive(Clone, Copy)]
pub struct Call<'a> {
    // None where the byte names no call.
    pub op: Option<Op>,
    // The op's numbers.
    pub numbers: &'a [u8],
    pub first: &'a [u8],
    // Empty where the op has one input.
    pub second: &'a [u8],
}

// The answer that a call has to give, with so much output lent.
#[derive(Clone, Copy)]
pub struct Answer<'a> {
    pub lent: usize,
    pub number: u32,
    // 8 bytes a value.
    pub values: &'a [u8],
    // The output written.
    pub output: &'a [u8],
}

#[derive(Clone, Copy)]
pub struct Case<'a> {
    pub call: Call<'a>,
    pub answer: Answer<'a>,
    // The place after it.
    pub end: usize,
    // Whether all of it lies in the sample.
    // Stays: a flag and no None, since a case that is cut is counted too.
    pub whole: bool,
}

// How many bytes the numbers of an op take.
#[tactic(auto, unfolding(crate::specs::Places::numbers_size))]
fn numbers_size(op: Option<Op>) -> usize
    ensures { result ≡ numbers_size op }
{
    match op {
        Some(Op::FixtureName) => 13,
        Some(Op::ImportStrict | Op::Import) => 4,
        Some(Op::Unpack | Op::Pack) => 2,
        _ => 0,
    }
}

// The second input, which the plan alone has.
#[tactic(auto, unfolding(crate::specs::Places::second_at, crate::specs::Places::part_at))]
fn read_second(s: &[u8], op: Option<Op>, at: usize) -> (&[u8], usize)
    ensures bytes { result.0.now ≡ bytes_of s.now (second_at s.now op at) }
    ensures end { result.1 ≡ (second_at s.now op at).end }
    ensures ahead { at ≤ result.1 }
{
    match op {
        Some(Op::Plan) => read_counted(s, at),
        _ => (&[], at),
    }
}

#[tactic(auto, unfolding(crate::specs::Places::first_of, crate::specs::Places::second_of))]
pub fn read_call(s: &[u8], at: usize) -> (Call<'_>, usize)
    ensures call { IsCall s.now at result.0 }
    ensures end { result.1 ≡ call_end s.now at }
    ensures ahead { at < length s.now → at < result.1 }
{
    let op = op_of(byte(s, at));
    let start = at.saturating_add(1);
    let size = numbers_size(op);
    let (first, after) = read_counted(s, start.saturating_add(size));
    let (second, end) = read_second(s, op, after);
    let call = Call {
        op,
        numbers: front(s, start, size),
        first,
        second,
    };
    (call, end)
}

#[tactic(auto, unfolding(crate::specs::Places::values_size, crate::specs::Places::output_at))]
pub fn read_answer(s: &[u8], at: usize) -> (Answer<'_>, usize)
    ensures answer { IsAnswer s.now at result.0 }
    ensures end { result.1 ≡ answer_end s.now at }
    ensures ahead { at ≤ result.1 }
{
    let start = at.saturating_add(9);
    let size = 8 * byte(s, at.saturating_add(8)) as usize;
    let (output, end) = read_counted(s, start.saturating_add(size));
    let answer = Answer {
        lent: word(s, at) as usize,
        number: word(s, at.saturating_add(4)),
        values: front(s, start, size),
        output,
    };
    (answer, end)
}

// The case at a place.
fn read_case(s: &[u8], at: usize) -> Case<'_>
    ensures case { IsCase s.now at result }
    ensures ahead { at < length s.now → at < result.end }
{
    let (call, after) = read_call(s, at);
    let (answer, end) = read_answer(s, after);
    Case {
        call,
        answer,
        end,
        whole: end <= s.len(),
    }
}

// The cases of a sample from a place on. Iterating gives them, and a last one that is cut short too.
#[derive(Clone, Copy)]
pub struct Cases<'a> {
    sample: &'a [u8],
    at: usize,
}

impl<'a> Cases<'a> {
    ghost use Rattle.std.specs.Prelude.{◌≡◌};

    // All cases of a sample.
    pub fn new(sample: &'a [u8]) -> Self
        ensures sample { result.sample ≡ sample.entry }
        ensures start { result.at ≡ 0 }
    {
        Cases { sample, at: 0 }
    }
}

impl<'a> Iterator for Cases<'a> {
    ghost use Rattle.std.specs.Prelude.{◌-◌, length};
    ghost use Rattle.std.specs.Iterator.{at_most};
    ghost use Rattle.samples.specs.Places.{GivesCase};

    type Item = Case<'a>;

    ghost next_gives = { GivesCase };

    ghost remaining = { λ c. at_most (length c.sample.now - c.at) };

    fn next(&mut self) -> Option<Case<'a>> {
        if self.sample.len() <= self.at {
            return None;
        }
        let case = read_case(self.sample, self.at);
        self.at = case.end;
        Some(case)
    }
}

// ---- answers

// What stands in the list of values, and at a place of the output, before a call.
pub const UNTOUCHED: u64 = 0xD15EA5ED0DDBA115;

#[tactic(auto, unfolding(crate::specs::Samples::untouched_of))]
fn untouched(i: usize) -> u8
    ensures { result ≡ untouched_of i }
{
    ((i % 251 + 165) % 256) as u8
}

// Fills an output with what stands there before a call.
pub fn fill(out: &mut [u8])
    ensures { Fresh out.new }
{
    for i in 0..out.len() {
        out[i] = untouched(i);
    }
}

// Whether the values are those given, and the rest of the list is untouched.
fn has_values(given: &[u8], values: &[u64]) -> bool {
    let Some((written, rest)) = values.split_at_checked(given.len() / 8) else {
        return false;
    };
    written
        .iter()
        .zip(given.chunks_exact(8))
        .all(|(&x, bytes)| x == long(bytes, 0))
        && rest.iter().all(|&x| x == UNTOUCHED)
}

// Whether the bytes from a place on are untouched.
fn is_untouched(out: &[u8], from: usize) -> bool
    ensures { result ≡ true → Untouched from out.now }
{
    for i in from..out.len() {
        if out[i] != untouched(i) {
            return false;
        }
    }
    true
}

// Whether the output starts with the bytes written, and the rest of it is untouched.
fn has_output(written: &[u8], out: &[u8]) -> bool
    ensures { Compared written.now out.now result }
{
    out.starts_with(written) && is_untouched(out, written.len())
}

// Whether a call's number, values and output are those of an answer, and the rest of both lists is untouched.
pub fn is_answer(a: Answer, number: u32, values: &[u64], out: &[u8]) -> bool
    ensures number { result ≡ true → number ≡ a.entry.number }
    ensures output { result ≡ true → Holds a.entry.output.now out.now }
{
    number == a.number && has_values(a.values, values) && has_output(a.output, out)
}
