// Bytes of the file with the place where they start, and the ACL packet in them.
#![tactic(auto)]

ghost use Rattle.std.specs.Prelude.{◌+◌, ◌≤◌, length};

use crate::{Fragment, key_of, start_of};
use words::field16;

// Bytes of the file, one after another, and the place where they start.
#[derive(Clone, Copy)]
pub struct Excerpt<'a> {
    pub bytes: &'a [u8],
    pub place: usize,
    pub ghost within: { place + length bytes.now ≤ 1048576 },
}

impl<'a> Excerpt<'a> {
    ghost use Rattle.std.specs.Prelude.{cond};
    ghost use Rattle.acl.specs.Reading.{After, AclIs, H4Is};

    // What follows its first n bytes.
    pub fn after(self, n: usize) -> Excerpt<'a>
        requires { n ≤ length self.bytes.now }
        ensures { After self.entry n result }
    {
        Excerpt {
            bytes: &self.bytes[n..],
            place: self.place + n,
        }
    }

    // The ACL packet; none where a field or the data is not all there.
    pub fn read_fragment(self, index: u16, rx: bool) -> Option<Fragment>
        ensures { AclIs self.entry index (cond rx 1 0) result }
    {
        let handle = field16(self.bytes, 0)?;
        let size = field16(self.bytes, 2)?;
        if self.bytes.len() < 4 + usize::from(size) {
            return None;
        }
        Some(Fragment {
            key: key_of(index, handle, rx),
            start: start_of(handle),
            place: (self.place + 4) as u32,
            len: u32::from(size),
        })
    }

    // An H4 packet: the first byte is 02 for ACL.
    pub fn read_h4(self, rx: bool) -> Option<Fragment>
        ensures { H4Is self.entry (cond rx 1 0) result }
    {
        if self.bytes.first() != Some(&2) {
            return None;
        }
        self.after(1).read_fragment(0, rx)
    }
}
