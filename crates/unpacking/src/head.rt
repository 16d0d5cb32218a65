// A frame in a wire, and the escaped part that its payload stands in.
#![tactic(auto)]

ghost use Rattle.std.specs.Prelude.{◌<◌, length};
ghost use Rattle.unescaping.specs.Places.{ahead};

use blocks::Part;
use unescaping::{fill, get};
use words::copy_to;

// An escaped part, and whether it is known that nothing in it is escaped.
pub type Escaped<'a> = Part<'a, 0x3D, 0x3D>;

// A frame that was found sound. Its payload is the first len bytes that an escaped part stands for; the sum follows it.
#[derive(Clone, Copy)]
pub struct Head<'a> {
    pub kind: u8,
    pub seq: u8,
    pub len: usize,
    pub part: Escaped<'a>,
    pub ghost enough: { len < length (ahead part.bytes.now) },
}

impl<'a> Head<'a> {
    ghost use Rattle.std.specs.Prelude.{◌≡◌, ◌≤◌, length, get_or};
    ghost use Rattle.std.proofs.lemmas.List.Edits.{sets};
    ghost use Rattle.unpacking.specs.Readings.{payload};

    // Writes the payload to the front of out. Not inlined: beside the reading, fill has too few registers.
    #[inline(never)]
    pub fn write_payload(self, out: &mut [u8])
        requires { self.len ≤ length out.old }
        ensures { out.new ≡ sets out.old 0 (payload self.entry) }
    {
        let part = self.part;
        if part.bare {
            copy_to(&part.bytes[..self.len], out, 0);
            return;
        }
        fill(part.bytes, out, self.len);
    }

    // The payload's first byte, 0 if it has none, as in mdr's Frame.
    // Stays: 0 and no Option, for the reason at mdr's Frame.
    pub fn first_byte(self) -> u8
        ensures { result ≡ get_or (payload self.entry) 0 0 }
    {
        if self.len == 0 {
            return 0;
        }
        let g = get(self.part.bytes, 0);
        g.byte
    }
}
