// Opening a trace: the refusals that every call which reads one has in common, and the packets of its whole records in work.
#![tactic(auto)]

ghost use Rattle.std.specs.Prelude.{◌≡◌};
ghost use Rattle.packets.specs.Adding.{ReadPre};
ghost use Rattle.opening.specs.Opening.{tail_of, SizesChecked, Opens, RecordsOpen, truncates};

use packets::{Packets, read_packets};
use trace::{Container, Refusal, Trace, read_header};

// Where a record passes the end: refuse, or read what comes before it.
#[derive(Clone, Copy)]
pub enum Tail {
    Strict,
    Tolerant,
}

// A trace that is open: how many packets it has, and where its whole records end.
#[derive(Clone, Copy)]
pub struct Opened<'a> {
    pub trace: Trace<'a>,
    pub packets: Packets,
}

// Whether a record passes the end and that is refused.
#[tactic(auto, unfolding(crate::specs::Opening::truncates))]
fn is_truncated(tail: Tail, at: usize, end: usize) -> bool
    ensures { result ≡ truncates tail at end }
{
    match tail {
        Tail::Strict => at != end,
        Tail::Tolerant => false,
    }
}

// Reads the packets of a trace whose header is read, of one link if it is named.
#[tactic(auto, unfolding(crate::specs::Opening::truncates))]
fn open_records<'a>(
    trace: Trace<'a>,
    work: &mut [u8],
    tail: Tail,
    only: Option<u32>,
) -> Result<Opened<'a>, Refusal>
    requires { ReadPre trace.format trace.file.now work.old }
    ensures { RecordsOpen trace.entry (tail_of tail) only result work.new }
{
    let packets = read_packets(trace, work, only);
    let at = packets.tail;
    if is_truncated(tail, at, trace.file.len()) {
        return Err(Refusal::Truncated(at));
    }
    Ok(Opened { trace, packets })
}

// Refuses a file that is too long, and work that is too short for it.
pub fn check_sizes(file: &[u8], work: &[u8]) -> Result<(), Refusal>
    ensures { SizesChecked file.now work.now result }
{
    let n = file.len();
    if 1048576 < n {
        return Err(Refusal::FileLong);
    }
    if work.len() < 8 * n {
        return Err(Refusal::WorkShort);
    }
    Ok(())
}

// Opens a trace, for the packets of one link if it is named. A file that is too long, and work that is too short, are refused first.
pub fn open_trace<'a>(
    file: &'a [u8],
    work: &mut [u8],
    container: Container,
    tail: Tail,
    only: Option<u32>,
) -> Result<Opened<'a>, Refusal>
    ensures { Opens container file.now work.old (tail_of tail) only result work.new }
{
    check_sizes(file, work)?;
    let format = read_header(file, container)?;
    open_records(Trace { file, format }, work, tail, only)
}
