// A reader over the lent capture, which gives its whole records.
#![tactic(auto)]

use crate::{Record, Step, Trace};

// The next record starts at an offset of the trace.
#[derive(Clone, Copy)]
pub struct Reader<'a> {
    pub trace: Trace<'a>,
    pub at: usize,
}

impl<'a> Reader<'a> {
    ghost use Rattle.std.specs.Prelude.{◌≡◌};
    ghost use Rattle.trace.specs.Reader.{step_of, Moves};

    // What it finds at its offset.
    pub fn next_step(self) -> Step
        ensures { result ≡ step_of self.entry.trace.format self.entry.trace.file.now self.entry.at }
    {
        self.trace.step_at(self.at)
    }

    // The reader at another offset.
    pub fn moved(self, at: usize) -> Reader<'a>
        ensures { Moves self.entry at result }
    {
        Reader {
            trace: self.trace,
            at,
        }
    }
}

impl<'a> Iterator for Reader<'a> {
    ghost use Rattle.std.specs.Prelude.{◌≤◌, ◌-◌, length};
    ghost use Rattle.std.specs.Iterator.{at_most};
    ghost use Rattle.trace.specs.Finding.{Reads};

    type Item = Record<'a>;

    ghost can_next = { λ r. length r.trace.file.now ≤ 1048576 };

    ghost next_gives = { Reads };

    ghost remaining = { λ r. at_most (length r.trace.file.now - r.at) };

    // The whole record at its offset, if there is one, after which it stands then.
    fn next(&mut self) -> Option<Record<'a>> {
        let Step::Record(end) = self.next_step() else {
            return None;
        };
        let found = Record {
            trace: self.trace,
            at: self.at,
            end,
        };
        *self = self.moved(end);
        Some(found)
    }
}
