// How a call answers over the C interface: a number as its result, and values at the front of a lent list, as many as it has
// room for.
#![tactic(auto)]

ghost use Rattle.std.specs.Prelude.{◌≡◌};
ghost use Rattle.laws.specs.Answers.{Answer, answered, wrote};
ghost use Rattle.capture.specs.Calls.{told_summary, told_sizes, told_find_error, told_import_error};
ghost use Rattle.trace.specs.Headers.{told_refusal};
ghost use Rattle.trace.specs.Listing.{told_walked};
ghost use Rattle.fixtures.specs.Told.{told_plan, told_plan_error};
ghost use Rattle.mdr.specs.Told.{told_unpacked, told_error, told_pack_error};
ghost use Rattle.order.specs.Order.{told_order_error};
ghost use Rattle.telling.specs.Telling.{stored, Told, TellsAs};

use capture::{FindError, ImportError, Sizes, Summary};
use fixtures::{PlanError, Planned};
use mdr::{PackError, UnpackError, Unpacked};
use order::OrderError;
use trace::{Refusal, Walked};

// Stores the numbers of a list at the front of values, as many as there is room for. Inlined, so that a few values that fit are
// stored one by one: how many there are is known where an answer is told.
// Stays: a branch where they fit, in which the list's length is the copy's. Where they do not, a loop: `copy_from_slice` of a length that is not
// known is a call of `memmove`, and a C program that links the library without a C library has none. Of the loop at most a `memcpy` is made.
#[inline(always)]
pub fn store(values: &mut [u64], list: &[u64])
    ensures { values.new ≡ stored list.now values.old }
{
    let n = list.len();
    let room = values.len();
    if n <= room {
        values[..n].copy_from_slice(list);
        return;
    }
    for i in 0..room {
        values[i] = list[i];
    }
}

// Stores the values of an answer, and returns its number.
#[inline(always)]
pub fn tell_as(number: u32, list: &[u64], values: &mut [u64]) -> u32
    ensures { TellsAs number list.now values.old result values.new }
{
    store(values, list);
    number
}

// What a call gives, or why it refuses: it is told as a number and values.
pub trait Tell {
    ghost answer: { Self → Answer };

    fn tell(self, values: &mut [u64]) -> u32
        ensures { Told (answer self) values.old result values.new };
}

impl<T: Tell, E: Tell> Tell for Result<T, E> {
    ghost answer = { answered T.answer E.answer };

    fn tell(self, values: &mut [u64]) -> u32 {
        match self {
            Ok(given) => given.tell(values),
            Err(refusal) => refusal.tell(values),
        }
    }
}

// ---- what calls give

// So many bytes are written.
impl Tell for usize {
    ghost answer = { wrote };

    fn tell(self, values: &mut [u64]) -> u32 {
        tell_as(0, &[self as u64], values)
    }
}

impl Tell for Unpacked {
    ghost answer = { told_unpacked };

    fn tell(self, values: &mut [u64]) -> u32 {
        tell_as(
            0,
            &[self.kind as u64, self.seq as u64, self.len as u64],
            values,
        )
    }
}

impl Tell for Planned {
    ghost answer = { told_plan };

    fn tell(self, values: &mut [u64]) -> u32 {
        tell_as(0, &[self.fixtures as u64, self.bytes as u64], values)
    }
}

impl Tell for Walked {
    ghost answer = { told_walked };

    fn tell(self, values: &mut [u64]) -> u32 {
        tell_as(0, &[self.count as u64, self.tail as u64], values)
    }
}

impl Tell for Summary {
    ghost answer = { told_summary };

    fn tell(self, values: &mut [u64]) -> u32 {
        let s = self.stream;
        let list = [
            s.dlci as u64,
            s.spans as u64,
            s.unfinished as u64,
            self.tail as u64,
            s.bytes as u64,
            self.wrong as u64,
            s.in_spans as u64,
            s.dropped as u64,
            s.cleared as u64,
            s.left as u64,
        ];
        tell_as(0, &list, values)
    }
}

impl Tell for Sizes {
    ghost answer = { told_sizes };

    fn tell(self, values: &mut [u64]) -> u32 {
        let list = [
            self.needed as u64,
            self.records as u64,
            self.pdus as u64,
            self.pieces as u64,
        ];
        tell_as(0, &list, values)
    }
}

// ---- why they refuse

impl Tell for UnpackError {
    ghost answer = { told_error };

    fn tell(self, values: &mut [u64]) -> u32 {
        match self {
            UnpackError::TooShort => tell_as(10, &[], values),
            UnpackError::NoStart => tell_as(11, &[], values),
            UnpackError::NoEnd => tell_as(12, &[], values),
            UnpackError::TrailingSentry => tell_as(13, &[], values),
            UnpackError::BadEscapee(b) => tell_as(14, &[b as u64], values),
            UnpackError::BodyTooShort => tell_as(15, &[], values),
            UnpackError::LengthMismatch(declared, actual) => {
                tell_as(16, &[declared, actual], values)
            }
            UnpackError::BadChecksum(declared, computed) => {
                tell_as(17, &[declared as u64, computed as u64], values)
            }
            UnpackError::OutShort(needed) => tell_as(7, &[needed as u64], values),
        }
    }
}

impl Tell for PackError {
    ghost answer = { told_pack_error };

    fn tell(self, values: &mut [u64]) -> u32 {
        match self {
            PackError::TooLong => tell_as(18, &[], values),
            PackError::OutShort(needed) => tell_as(7, &[needed as u64], values),
        }
    }
}

impl Tell for PlanError {
    ghost answer = { told_plan_error };

    fn tell(self, values: &mut [u64]) -> u32 {
        match self {
            PlanError::SpansIll(offset) => tell_as(19, &[offset as u64], values),
            PlanError::NamesIll(offset) => tell_as(20, &[offset as u64], values),
            PlanError::OutShort(needed) => tell_as(7, &[needed as u64], values),
        }
    }
}

impl Tell for OrderError {
    ghost answer = { told_order_error };

    fn tell(self, values: &mut [u64]) -> u32 {
        match self {
            OrderError::IllFormed(offset) => tell_as(20, &[offset as u64], values),
            OrderError::OutShort(needed) => tell_as(7, &[needed as u64], values),
        }
    }
}

impl Tell for Refusal {
    ghost answer = { told_refusal };

    fn tell(self, values: &mut [u64]) -> u32 {
        match self {
            Refusal::FileLong => tell_as(1, &[], values),
            Refusal::WorkShort => tell_as(2, &[], values),
            Refusal::NotBtsnoop => tell_as(3, &[], values),
            Refusal::Datalink(n) => tell_as(4, &[n as u64], values),
            Refusal::NotPcap => tell_as(21, &[], values),
            Refusal::LinkType(n) => tell_as(22, &[n as u64], values),
            Refusal::Truncated(offset) => tell_as(5, &[offset as u64], values),
        }
    }
}

impl Tell for FindError {
    ghost answer = { told_find_error };

    fn tell(self, values: &mut [u64]) -> u32 {
        match self {
            FindError::Refused(x) => x.tell(values),
            FindError::NoStream => tell_as(6, &[], values),
        }
    }
}

impl Tell for ImportError {
    ghost answer = { told_import_error };

    fn tell(self, values: &mut [u64]) -> u32 {
        match self {
            ImportError::Refused(x) => x.tell(values),
            ImportError::NoStream => tell_as(6, &[], values),
            ImportError::OutShort(needed) => tell_as(7, &[needed as u64], values),
        }
    }
}
