// Import: from the bytes of a trace to the list of the spans of one DLCI; and the sizes, told before import writes it.
#![tactic(auto)]

ghost use Rattle.std.specs.Prelude.{None, ◌≡◌, get_or};
ghost use Rattle.trace.specs.Formats.{format_of};
ghost use Rattle.packets.specs.Adding.{ReadTo};
ghost use Rattle.capture.specs.Options.{options_of};
ghost use Rattle.capture.specs.declared.FindError.TheVariants as finding;
ghost use Rattle.capture.specs.declared.ImportError.TheVariants as importing;
ghost use Rattle.capture.specs.Calls.{unfound, PacketsFind, Finds, Imports, Sizing};

use gathering::gather;
use opening::{Tail, open_trace};
use packets::Packets;
use streams::{Stream, choose_stream, write_list};
use trace::{Container, Refusal};

// What a caller chooses, beside the file and the buffers.
#[derive(Clone, Copy)]
pub struct Options {
    pub container: Container,
    pub channel: Option<u8>,
    pub tail: Tail,
    // whether FCS is checked
    pub fcs: bool,
}

// What import finds: the DLCI chosen, with what is counted of it; how many whole records and completed PDUs there are, and how many
// pieces, which stand in work's table; the tail offset, and the DLCI's UIH frames with a wrong FCS.
#[derive(Clone, Copy)]
pub struct Summary {
    pub stream: Stream,
    pub records: usize,
    pub pdus: usize,
    pub pieces: usize,
    pub tail: usize,
    pub wrong: usize,
}

// The output length that import needs, and how many records, PDUs and pieces there are.
#[derive(Clone, Copy)]
pub struct Sizes {
    pub needed: usize,
    pub records: usize,
    pub pdus: usize,
    pub pieces: usize,
}

// Why nothing is found.
#[derive(Clone, Copy)]
pub enum FindError {
    // 1 to 5, and pcap's 21 and 22
    Refused(Refusal),
    NoStream,
}

// Why import gives nothing.
#[derive(Clone, Copy)]
pub enum ImportError {
    Refused(Refusal),
    NoStream,
    OutShort(usize),
}

impl From<Refusal> for FindError {
    ghost from_gives = { λ x y. y ≡ finding.Refused x };

    fn from(x: Refusal) -> FindError {
        FindError::Refused(x)
    }
}

impl From<Refusal> for ImportError {
    ghost from_gives = { λ x y. y ≡ importing.Refused x };

    fn from(x: Refusal) -> ImportError {
        ImportError::Refused(x)
    }
}

impl From<FindError> for ImportError {
    ghost from_gives = { λ x y. y ≡ unfound x };

    fn from(x: FindError) -> ImportError {
        match x {
            FindError::Refused(x) => ImportError::Refused(x),
            FindError::NoStream => ImportError::NoStream,
        }
    }
}

// ---- what import finds, before it writes

// Finds the first DLCI, on the channel if one is given, that has a span which unpacks. Work keeps what was counted of it.
fn find(file: &[u8], work: &mut [u8], options: Options) -> Result<Summary, FindError>
    ensures { Finds options.container file.now work.old (options_of options) result work.new }
{
    let opened = open_trace(file, work, options.container, options.tail, None)?;
    find_packets(file, work, options, opened.packets)
}

// The same for a trace whose packets stand in work.
fn find_packets(
    file: &[u8],
    work: &mut [u8],
    options: Options,
    p: Packets,
) -> Result<Summary, FindError>
    requires { ReadTo (format_of options.container file.now) file.now None work.old p }
    ensures { PacketsFind options.container file.now (options_of options) result work.new }
{
    let g = gather(file, work, p.count, options.fcs);
    let stream = choose_stream(file, work, g.pieces, options.channel).ok_or(FindError::NoStream)?;
    Ok(Summary {
        stream,
        records: p.records,
        pdus: g.pdus,
        pieces: g.pieces,
        tail: p.tail,
        wrong: wrong_on(&g.wrong, stream.dlci),
    })
}

// How many of the frames with a wrong FCS came on a DLCI.
fn wrong_on(wrong: &[u32], dlci: u8) -> usize
    ensures { result ≡ get_or wrong.now dlci 0 }
{
    wrong.get(dlci as usize).copied().unwrap_or(0) as usize
}

// ---- the calls

// Imports a trace: lists the spans of the DLCI found. Work keeps what was counted of it.
pub fn import(
    file: &[u8],
    work: &mut [u8],
    out: &mut [u8],
    options: Options,
) -> Result<Summary, ImportError>
    ensures { Imports options.container file.now work.old (options_of options) out.old result work.new out.new }
{
    let s = find(file, work, options)?;
    let needed = s.stream.bytes;
    if out.len() < needed {
        return Err(ImportError::OutShort(needed));
    }
    write_list(file, work, s.pieces, s.stream.dlci, out);
    Ok(s)
}

// The sizes of what import would give: all of import but its writing.
pub fn import_sizes(file: &[u8], work: &mut [u8], options: Options) -> Result<Sizes, FindError>
    ensures { Sizing options.container file.now work.old (options_of options) result work.new }
{
    let s = find(file, work, options)?;
    Ok(Sizes {
        needed: s.stream.bytes,
        records: s.records,
        pdus: s.pdus,
        pieces: s.pieces,
    })
}
