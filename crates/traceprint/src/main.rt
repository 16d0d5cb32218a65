// Prints a trace: reads standard input, its first 4,096 bytes and no more, and prints the DLCI, frames and unfinished that
// import gives, then the names of the fixtures, one to a line; or the number of a refusal, with the value that it carries, if any.
#![tactic(auto)]

ghost use Rattle.std.specs.Prelude.{◌≡◌, OnOk, Some};
ghost use Rattle.std.proofs.Math.Option.{none};
ghost use Rattle.laws.specs.Answers.{Meets};
ghost use Rattle.items.specs.Walks.{any_item, Walks, items_from};
ghost use Rattle.trace.specs.Formats.{container_of};
ghost use Rattle.trace.specs.declared.Container.TheVariants.{Btsnoop};
ghost use Rattle.outcome.specs.Import.{strict, by_source, imported};
ghost use Rattle.std.specs.Io.KnownBytes.{Appends};
ghost use Rattle.trace.specs.Headers.{told_refusal};
ghost use Rattle.capture.specs.Calls.{told_imported, told_import_error};
ghost use Rattle.fixtures.specs.Told.{told_plan_error};
ghost use Rattle.traceprint.specs.Lies.{Lies};
ghost use Rattle.traceprint.specs.Lines.{counts_line, name_lines, spans_lines, trace_lines};
ghost use Rattle.traceprint.specs.Refusals.{refused_text, told};

use capture::{ImportError, Options, Summary, import};
use fixtures::{PlanError, plan};
use items::{Listing, NAME, Walk};
use opening::Tail;
use reading::read_full;
use std::io::Write;
use std::{fmt, io};
use streams::Stream;
use trace::{Container, Refusal};

// ---- text

// A refusal: its number, and the value that it carries, if it carries one.
#[derive(Clone, Copy)]
struct Refused(usize, Option<usize>);

impl fmt::Display for Refused {
    ghost output = { λ r. Some (refused_text r) };

    fn fmt<W: fmt::Write>(&self, f: &mut fmt::Formatter<W>) -> fmt::Result {
        let Refused(number, value) = *self;
        match value {
            None => write!(f, "refused {number}"),
            Some(v) => write!(f, "refused {number} {v}"),
        }
    }
}

// Stays: telling has these numbers too, for C, with two values where there are two, and stores them in a lent list. A method of each error for
// both would stand in five crates below and give a number and a list of values, which this program would take apart into one or none.
impl From<Refusal> for Refused {
    ghost from_gives = { λ e r. told r ≡ told_refusal e };

    fn from(e: Refusal) -> Refused {
        match e {
            Refusal::FileLong => Refused(1, None),
            Refusal::WorkShort => Refused(2, None),
            Refusal::NotBtsnoop => Refused(3, None),
            Refusal::Datalink(n) => Refused(4, Some(n as usize)),
            Refusal::NotPcap => Refused(21, None),
            Refusal::LinkType(n) => Refused(22, Some(n as usize)),
            Refusal::Truncated(offset) => Refused(5, Some(offset)),
        }
    }
}

impl From<ImportError> for Refused {
    ghost from_gives = { λ e r. told r ≡ told_import_error e };

    fn from(e: ImportError) -> Refused {
        match e {
            ImportError::Refused(x) => Refused::from(x),
            ImportError::NoStream => Refused(6, None),
            ImportError::OutShort(needed) => Refused(7, Some(needed)),
        }
    }
}

impl From<PlanError> for Refused {
    ghost from_gives = { λ e r. told r ≡ told_plan_error e };

    fn from(e: PlanError) -> Refused {
        match e {
            PlanError::SpansIll(offset) => Refused(19, Some(offset)),
            PlanError::NamesIll(offset) => Refused(20, Some(offset)),
            PlanError::OutShort(needed) => Refused(7, Some(needed)),
        }
    }
}

// The first line of a trace.
fn print_counts<W: Write>(out: &mut W, x: Stream) -> io::Result<()>
    ensures { OnOk result (Appends (W.contents out.old) (W.contents out.new) (counts_line x.dlci x.spans x.unfinished)) }
{
    writeln!(
        out,
        "dlci {} frames {} unfinished {}",
        x.dlci, x.spans, x.unfinished
    )
}

// The names in a list of fixtures, one to a line; other items are passed over.
fn print_names<W: Write>(out: &mut W, list: &[u8]) -> io::Result<()>
    ensures { Walks any_item list.now 0 → OnOk result (Appends (W.contents out.old) (W.contents out.new) (name_lines (items_from any_item list.now 0))) }
{
    let entries = Walk {
        list,
        which: Listing::Any,
        at: 0,
    };
    for entry in entries {
        let Ok(entry) = entry else {
            return Ok(());
        };
        if entry.kind == NAME {
            out.write_all(entry.body)?;
            out.write_all(b"\n")?;
        }
    }
    Ok(())
}

// ---- the trace

// The counts of a stream, and the names of the fixtures in its list of spans with nothing excluded. 65,536 bytes hold the plan: in a
// trace of 4,096 at most 455 spans unpack, of at least 9 bytes each, and a fixture takes at most 130 beside its wire.
fn print_spans<W: Write>(out: &mut W, spans: &[u8], x: Stream) -> io::Result<()>
    ensures { OnOk result (Appends (W.contents out.old) (W.contents out.new) (spans_lines (counts_line x.dlci x.spans x.unfinished) spans.now)) }
{
    let mut fixtures = [0u8; 65536];
    match plan(spans, b"", &mut fixtures) {
        Ok(p) => {
            print_counts(out, x)?;
            print_names(out, &fixtures[..p.bytes])
        }
        Err(e) => writeln!(out, "{}", Refused::from(e)),
    }
}

// Import of a btsnoop file, strictly and on any channel, FCS unchecked. 65,536 bytes of work are more than the 8 times 4,096 that it asks.
fn import_any(file: &[u8], spans: &mut [u8]) -> Result<Summary, ImportError>
    ensures lies { Lies result spans.new }
    ensures meets { Meets (imported (container_of Btsnoop) file.now 65536 (by_source none strict)) spans.old (told_imported result) spans.new }
{
    let mut work = [0u8; 65536];
    let options = Options {
        container: Container::Btsnoop,
        channel: None,
        tail: Tail::Strict,
        fcs: false,
    };
    import(file, &mut work, spans, options)
}

// What import gives of a trace. Its list takes less than 8 times the trace.
fn print_trace<W: Write>(out: &mut W, file: &[u8]) -> io::Result<()>
    ensures { OnOk result (Appends (W.contents out.old) (W.contents out.new) (trace_lines file.now)) }
{
    let mut spans = [0u8; 65536];
    match import_any(file, &mut spans) {
        Ok(s) => {
            let bytes = s.stream.bytes;
            print_spans(out, &spans[..bytes], s.stream)
        }
        Err(e) => writeln!(out, "{}", Refused::from(e)),
    }
}

fn main(rt: HostRuntime) -> io::Result<()> {
    let mut file = [0u8; 4096];
    let mut input = rt.reader();
    let n = read_full(&mut input, &mut file)?;
    let mut out = io::writer(&rt);
    print_trace(&mut out, &file[..n])
}
