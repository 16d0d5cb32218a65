// A trace: the container that its file is of, what its header says, and its records, by a reader.
#![tactic(auto)]

ghost use Rattle.std.specs.Prelude.{◌≡◌, ◌+◌, ◌≤◌, length, set, drop};
ghost use Rattle.trace.specs.Formats.{file_head, record_head, size_by};
ghost use Rattle.trace.specs.Headers.{btsnoop_refusal, pcap_refusal, HeaderIs};
ghost use Rattle.trace.specs.Reader.{step_of, Starts, Moves};
ghost use Rattle.trace.specs.Listing.{Lists};
ghost use Rattle.trace.specs.Listings.{WalkedTo};

mod reader;
mod record;

use btsnoop::Datalink;
use pcap::Encoding;
pub use reader::Reader;
pub use record::Record;

// The container of a trace's file. The caller says which; nothing is guessed.
#[derive(Clone, Copy)]
pub enum Container {
    Btsnoop,
    Pcap,
}

// What a header says of how the records after it are read.
#[derive(Clone, Copy)]
pub enum Format {
    // a btsnoop file: its datalink
    Btsnoop(Datalink),
    // a pcap file: how its numbers are written
    Pcap(Encoding),
}

// Why a trace is not read.
#[derive(Clone, Copy)]
pub enum Refusal {
    FileLong,
    WorkShort,
    NotBtsnoop,
    Datalink(u32),
    NotPcap,
    LinkType(u32),
    Truncated(usize),
}

impl From<btsnoop::HeaderError> for Refusal {
    ghost from_gives = { λ e r. r ≡ btsnoop_refusal e };

    fn from(e: btsnoop::HeaderError) -> Refusal {
        match e {
            btsnoop::HeaderError::NotBtsnoop => Refusal::NotBtsnoop,
            btsnoop::HeaderError::Datalink(n) => Refusal::Datalink(n),
        }
    }
}

impl From<pcap::HeaderError> for Refusal {
    ghost from_gives = { λ e r. r ≡ pcap_refusal e };

    fn from(e: pcap::HeaderError) -> Refusal {
        match e {
            pcap::HeaderError::NotPcap => Refusal::NotPcap,
            pcap::HeaderError::LinkType(n) => Refusal::LinkType(n),
        }
    }
}

// Reads the header of a file of the container.
pub fn read_header(file: &[u8], container: Container) -> Result<Format, Refusal>
    ensures { HeaderIs container file.now result }
{
    match container {
        Container::Btsnoop => Ok(Format::Btsnoop(btsnoop::read_header(file)?)),
        Container::Pcap => Ok(Format::Pcap(pcap::read_header(file)?)),
    }
}

// How many bytes the file header has, after which the first record starts.
pub fn file_head(format: Format) -> usize
    ensures { (result ≡ file_head format) × (result ≤ 24) }
{
    match format {
        Format::Btsnoop(_) => 16,
        Format::Pcap(_) => 24,
    }
}

// How many bytes a record has before its packet's bytes.
pub fn record_head(format: Format) -> usize
    ensures { (result ≡ record_head format) × (result ≤ 24) }
{
    match format {
        Format::Btsnoop(_) => 24,
        Format::Pcap(_) => 16,
    }
}

// A trace whose header is read: its file, and how the records in it are read.
#[derive(Clone, Copy)]
pub struct Trace<'a> {
    pub file: &'a [u8],
    pub format: Format,
}

// What stands at an offset.
// Stays: no Option of the end, though no code here tells Cut from End: step_at and next_step are public and promise step_of, which tells them.
#[derive(Clone, Copy)]
pub enum Step {
    // a whole record: where it ends
    Record(usize),
    // a record that passes the end: where it starts
    Cut(usize),
    // the file's end
    End,
}

impl<'a> Trace<'a> {
    // The size of the record at a place, from its front.
    pub fn size_at(self, at: usize) -> usize
        requires { at + 16 ≤ length self.file.now }
        ensures { result ≡ size_by self.entry.format (drop at self.entry.file.now) }
    {
        match self.format {
            Format::Btsnoop(_) => btsnoop::record_size(self.file, at),
            Format::Pcap(e) => pcap::record_size(self.file, at, e),
        }
    }

    // What stands at an offset.
    pub fn step_at(self, at: usize) -> Step
        ensures { result ≡ step_of self.entry.format self.entry.file.now at }
    {
        let n = self.file.len();
        if n <= at {
            return Step::End;
        }
        let left = n - at;
        if left < 16 {
            return Step::Cut(at);
        }
        let size = self.size_at(at);
        if left < size {
            return Step::Cut(at);
        }
        Step::Record(at + size)
    }

    // A reader of its records, at the first.
    pub fn records(self) -> Reader<'a>
        ensures { Starts self.entry result }
    {
        Reader {
            trace: self,
            at: file_head(self.format),
        }
    }
}

// What walking the records finds: how many there are, and the tail offset.
#[derive(Clone, Copy)]
pub struct Walked {
    pub count: usize,
    pub tail: usize,
}

// Stores an offset at a place, if there is one.
// Stays: a test and a store: by `get_mut` (tried) neither case is proved, since std says nothing of what the slice is when the borrow has ended.
fn put_start(starts: &mut [u64], i: usize, at: usize)
    ensures { starts.new ≡ set starts.old i at }
{
    if i < starts.len() {
        starts[i] = at as u64;
    }
}

// Walks the records by a reader, and stores where each starts, as many as there is room for.
fn walk_records(trace: Trace, starts: &mut [u64]) -> Walked
    requires { length trace.file.now ≤ 1048576 }
    ensures { WalkedTo trace.entry.format trace.entry.file.now starts.old starts.new result }
{
    let mut records = trace.records();
    // Stays: counted by hand, since the count is told after the walk too, and enumerate would keep it.
    let mut count = 0;
    while let Some(r) = records.next() {
        put_start(starts, count, r.at);
        count += 1;
    }
    Walked {
        count,
        tail: records.at,
    }
}

// Stores where each whole record starts at the front of a list, as many as there is room for.
pub fn list_records(
    file: &[u8],
    container: Container,
    starts: &mut [u64],
) -> Result<Walked, Refusal>
    ensures { Lists container file.now starts.old result starts.new }
{
    if 1048576 < file.len() {
        return Err(Refusal::FileLong);
    }
    let format = read_header(file, container)?;
    Ok(walk_records(Trace { file, format }, starts))
}
