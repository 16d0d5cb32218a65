// One whole record of a trace.
#![tactic(auto)]

ghost use Rattle.trace.specs.Walk.{RecordPre};

use crate::Trace;

// A whole record of a trace: where it starts and ends in the file.
#[derive(Clone, Copy)]
pub struct Record<'a> {
    pub trace: Trace<'a>,
    pub at: usize,
    pub end: usize,
    pub ghost whole: { RecordPre trace.format trace.file.now at end },
}

impl<'a> Record<'a> {
    ghost use Rattle.std.specs.Prelude.{◌≡◌};
    ghost use Rattle.trace.specs.Finding.{bytes_of};

    // Its bytes, with those of its head.
    pub fn bytes(self) -> &'a [u8]
        ensures { result.now ≡ bytes_of self.entry }
    {
        &self.trace.file[self.at..self.end]
    }
}
