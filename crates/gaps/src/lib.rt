// Signs in a trace that something is not in it: the call that counts them, by three walks over the records.
#![tactic(auto)]

ghost use Rattle.std.specs.Prelude.{◌≡◌};
ghost use Rattle.packets.specs.PacketTable.{Read};
ghost use Rattle.opening.specs.Opening.{tail_of};
ghost use Rattle.signs.specs.Gaps.{gaps};
ghost use Rattle.trace.specs.declared.Container.TheVariants.{Btsnoop};
ghost use Rattle.options.specs.Numbers.{tail_number, tail_in, container_in};
ghost use Rattle.gaps.specs.Calls.{signs_of, told_signs, Finds, GapsCalls};

use following::{Partial, follow_packets};
use leftover::left_open;
use opening::{Tail, open_trace};
use options::{container_in, tail_in, tail_of};
use recorded::{Recorded, record_signs};
use signs::Gap;
use telling::{Tell, tell_as};
use trace::{Container, Refusal, Trace};

// What records show, what packets show, and what is open at the end.
#[derive(Clone, Copy)]
pub struct Signs {
    pub recorded: Recorded,
    pub partial: Partial,
    pub left: Gap,
}

// The signs of a trace whose packets stand in work.
fn find_signs(trace: Trace, work: &mut [u8], count: usize) -> Signs
    requires { Read trace.format trace.file.now work.old count }
    ensures { signs_of result ≡ gaps trace.entry.format trace.entry.file.now }
{
    let recorded = record_signs(trace);
    let partial = follow_packets(trace, work, count);
    let left = left_open(trace, work);
    Signs {
        recorded,
        partial,
        left,
    }
}

// The signs of a trace.
// Stays: container and tail side by side, here and in `opening`, as C gives them; capture's Options hold them with what only import asks.
pub fn find_gaps(
    file: &[u8],
    work: &mut [u8],
    container: Container,
    tail: Tail,
) -> Result<Signs, Refusal>
    ensures { Finds container file.now work.old (tail_of tail) result work.new }
{
    let t = open_trace(file, work, container, tail, None)?;
    Ok(find_signs(t.trace, work, t.packets.count))
}

// The signs' numbers: for each how many, and where the first is.
impl Tell for Signs {
    ghost answer = { told_signs };

    fn tell(self, values: &mut [u64]) -> u32 {
        let r = self.recorded;
        let p = self.partial;
        let list = [
            r.short.many,
            r.short.first,
            r.dropped.many,
            r.dropped.first,
            r.skipped.many,
            r.skipped.first,
            r.zeros.many,
            r.zeros.first,
            p.stray.many,
            p.stray.first,
            p.given_up.many,
            p.given_up.first,
            self.left.many,
            self.left.first,
        ];
        tell_as(0, &list, values)
    }
}

// Tells the signs of a trace, or a refusal.
fn tell_gaps(
    file: &[u8],
    work: &mut [u8],
    container: Container,
    tail: Tail,
    values: &mut [u64],
) -> u32
    ensures { GapsCalls container file.now work.old (tail_of tail) values.old result work.new values.new }
{
    find_gaps(file, work, container, tail).tell(values)
}

// Tells the signs of a btsnoop file, or a refusal: 0 is strict, any other tolerant.
pub fn gaps_told(file: &[u8], work: &mut [u8], tolerant: u32, values: &mut [u64]) -> u32
    ensures { GapsCalls Btsnoop file.now work.old (tail_number tolerant) values.old result work.new values.new }
{
    let tail = tail_of(tolerant as u64);
    tell_gaps(file, work, Container::Btsnoop, tail, values)
}

// Tells the signs of a trace by options in a list of numbers, or a refusal.
pub fn gaps_with(file: &[u8], work: &mut [u8], options: &[u64], values: &mut [u64]) -> u32
    ensures { GapsCalls (container_in options.now) file.now work.old (tail_in options.now) values.old result work.new values.new }
{
    let container = container_in(options);
    let tail = tail_in(options);
    tell_gaps(file, work, container, tail, values)
}
