// Unpacking: what a wire says, its payload, and a look at it without an output.
#![tactic(auto)]

ghost use Rattle.std.specs.Prelude.{◌≡◌, ◌≤◌, length};
ghost use Rattle.laws.specs.Answers.{Meets};
ghost use Rattle.mdr.specs.Escape.{unescape};
ghost use Rattle.mdr.specs.Frame.{judged, bodied, last_of, unpack_of, unpacks_of};
ghost use Rattle.mdr.specs.Told.{told, told_inspected, glance};
ghost use Rattle.unescaping.specs.Places.{ahead, Sound};
ghost use Rattle.unescaping.specs.Flaws.{Measured};
ghost use Rattle.unpacking.specs.Readings.{HeaderIs, Summed, Reads};

mod head;

use head::{Escaped, Head};
use mdr::{Frame, UnpackError, Unpacked};
use unescaping::{fill_few, first_flaw, scan};
use words::get_be32;

// ---- the first six bytes, and the last

// The first six bytes, and the escaped part after them.
#[derive(Clone, Copy)]
struct Header<'a> {
    kind: u8,
    seq: u8,
    declared: u64,
    rest: Escaped<'a>,
}

fn escaped_header(s: &[u8]) -> Header
    requires { 6 ≤ length (ahead s.now) }
    ensures { HeaderIs s.now result }
{
    let mut head = [0u8; 6];
    let used = fill_few(s, &mut head, 0, 6);
    Header {
        kind: head[0],
        seq: head[1],
        declared: u64::from(get_be32(&head, 2)),
        rest: Escaped {
            bytes: &s[used..],
            bare: false,
        },
    }
}

#[inline(always)]
fn read_header(part: Escaped) -> Header
    requires { 6 ≤ length (ahead part.bytes.now) }
    ensures { HeaderIs part.entry.bytes.now result }
{
    let s = part.bytes;
    if part.bare {
        return Header {
            kind: s[0],
            seq: s[1],
            declared: u64::from(get_be32(s, 2)),
            rest: Escaped {
                bytes: &s[6..],
                bare: true,
            },
        };
    }
    escaped_header(s)
}

// The last byte of a sound escaped part.
fn last_byte(s: &[u8]) -> u8
    requires in_bounds { 2 ≤ length s.now }
    requires sound { Sound s.now }
    ensures { result ≡ last_of (ahead s.now) }
{
    let n = s.len();
    let b = s[n - 1];
    if s[n - 2] == 0x3D { b + 16 } else { b }
}

// ---- reading, all of it inlined into each call: an answer that goes through memory costs the smallest frames a third

// What the unescaped bytes say: there are n, last is the last and sum that of those before it.
#[inline(always)]
fn judge(part: Escaped, n: usize, sum: u8, last: u8) -> Result<Head, UnpackError>
    requires { Summed (ahead part.bytes.now) n sum last }
    ensures { Reads (judged (ahead part.entry.bytes.now)) result }
{
    if n < 7 {
        return Err(UnpackError::BodyTooShort);
    }
    let len = n - 7;
    let actual = len as u64;
    let h = read_header(part);
    let declared = h.declared;
    if last != sum {
        return Err(UnpackError::BadChecksum(last, sum));
    }
    if declared != actual {
        return Err(UnpackError::LengthMismatch(declared, actual));
    }
    Ok(Head {
        kind: h.kind,
        seq: h.seq,
        len,
        part: h.rest,
    })
}

// raw is the sum of all bytes as they stand. Each 3D and what follows it stand for one byte, 45 less than their sum.
#[inline(always)]
fn read_counted(s: &[u8], raw: u8, sentries: usize) -> Result<Head, UnpackError>
    requires measured { Measured s.now raw sentries }
    requires sound { Sound s.now }
    ensures { Reads (bodied (unescape s.now)) result }
{
    let n = s.len() - sentries;
    let last = last_byte(s);
    let off = (sentries % 256 * 45 % 256) as u8;
    let sum = raw.wrapping_sub(off).wrapping_sub(last);
    let part = Escaped {
        bytes: s,
        bare: sentries == 0,
    };
    judge(part, n, sum, last)
}

#[inline(always)]
fn read_body(s: &[u8]) -> Result<Head, UnpackError>
    requires { 7 ≤ length s.now }
    ensures { Reads (bodied (unescape s.now)) result }
{
    let t = scan(s);
    first_flaw(t.rest)?;
    read_counted(s, t.sum, t.hits)
}

// What a wire says, before an output is looked at.
#[inline(always)]
fn read_frame(wire: &[u8]) -> Result<Head, UnpackError>
    ensures { Reads (unpack_of wire.now) result }
{
    let n = wire.len();
    if n < 9 {
        return Err(UnpackError::TooShort);
    }
    if wire[0] != 0x3E {
        return Err(UnpackError::NoStart);
    }
    let end = n - 1;
    if wire[end] != 0x3C {
        return Err(UnpackError::NoEnd);
    }
    read_body(&wire[1..end])
}

// ---- the calls

// Reads one frame, and writes its payload to the front of out.
pub fn unpack(wire: &[u8], out: &mut [u8]) -> Result<Unpacked, UnpackError>
    ensures { Meets (unpack_of wire.now) out.old (told result) out.new }
{
    let h = read_frame(wire)?;
    if out.len() < h.len {
        return Err(UnpackError::OutShort(h.len));
    }
    h.write_payload(out);
    Ok(Unpacked {
        kind: h.kind,
        seq: h.seq,
        len: h.len,
    })
}

// Whether a wire unpacks.
pub fn unpacks(wire: &[u8]) -> bool
    ensures { result ≡ unpacks_of wire.now }
{
    read_frame(wire).is_ok()
}

// Reads one frame without an output.
pub fn inspect(wire: &[u8]) -> Result<Frame, UnpackError>
    ensures { told_inspected result ≡ glance (unpack_of wire.now) }
{
    let h = read_frame(wire)?;
    Ok(Frame {
        kind: h.kind,
        seq: h.seq,
        size: h.len,
        first: h.first_byte(),
    })
}
