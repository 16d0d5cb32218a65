// The pcap file: its header, and the size, time and ACL packet of a record.
#![tactic(auto)]

ghost use Rattle.std.specs.Prelude.{◌≡◌, cond, ◌+◌, ◌/◌, ◌<◌, ◌≤◌, length, drop};
ghost use Rattle.pcap.specs.Header.{number};
ghost use Rattle.pcap.specs.Headers.{encoding_of, header_of};
ghost use Rattle.pcap.specs.Records.{record_size};
ghost use Rattle.pcap.specs.Packets.{milliseconds};
ghost use Rattle.pcap.specs.Reading.{RecordIs};

use acl::{Excerpt, Fragment};
use words::{get_be32, get_le32};

// How the numbers of a file are written, by its magic: the highest byte first, fractions of a second in nanoseconds.
#[derive(Clone, Copy)]
pub struct Encoding {
    pub big: bool,
    pub nano: bool,
}

// Why a header is not taken: it is none of pcap, or its link type is another.
#[derive(Clone, Copy)]
pub enum HeaderError {
    NotPcap,
    LinkType(u32),
}

// How the numbers of a pcap file are written, by its magic; none of another file.
fn encoding_of(file: &[u8]) -> Option<Encoding>
    ensures { result ≡ encoding_of file.now }
{
    if file.len() < 24 {
        return None;
    }
    let (big, nano) = match get_be32(file, 0) {
        0xA1B2C3D4 => (true, false),
        0xA1B23C4D => (true, true),
        0xD4C3B2A1 => (false, false),
        0x4D3CB2A1 => (false, true),
        _ => return None,
    };
    Some(Encoding { big, nano })
}

impl Encoding {
    // The number at a place, by the byte order.
    pub fn number(self, file: &[u8], at: usize) -> u32
        requires { at + 4 ≤ length file.now }
        ensures { result ≡ number self.big file.now at }
    {
        if self.big {
            return get_be32(file, at);
        }
        get_le32(file, at)
    }
}

// Reads the header: how numbers are written.
pub fn read_header(file: &[u8]) -> Result<Encoding, HeaderError>
    ensures { result ≡ header_of file.now }
{
    let encoding = encoding_of(file).ok_or(HeaderError::NotPcap)?;
    let n = encoding.number(file, 20);
    if n != 201 {
        return Err(HeaderError::LinkType(n));
    }
    Ok(encoding)
}

// The size of the record at a place, from its front.
// Stays: a function, as time_at below, and no method of Encoding: btsnoop has both under these names, and trace calls the two alike.
pub fn record_size(file: &[u8], at: usize, encoding: Encoding) -> usize
    requires { at + 12 ≤ length file.now }
    ensures { result ≡ record_size encoding.big (drop at file.now) }
{
    16 + encoding.number(file, at + 8) as usize
}

// The packet of a record: a direction, then H4.
pub fn read_packet(r: Excerpt) -> Option<Fragment>
    requires { 16 ≤ length r.bytes.now }
    ensures { RecordIs r.entry result }
{
    if r.bytes.len() < 20 {
        return None;
    }
    let way = get_be32(r.bytes, 16);
    if way < 2 {
        return r.after(20).read_h4(way == 1);
    }
    None
}

// A fraction of a second in milliseconds, rounded down.
fn fraction_of(x: u32, nano: bool) -> u64
    ensures { (result ≡ cond nano (x / 1000000) (x / 1000)) × (result < 4294967296) }
{
    if nano {
        return (x / 1000000) as u64;
    }
    (x / 1000) as u64
}

// The milliseconds of the record at a place.
pub fn time_at(file: &[u8], at: usize, encoding: Encoding) -> u64
    requires { at + 8 ≤ length file.now }
    ensures { result ≡ milliseconds encoding.big encoding.nano (drop at file.now) }
{
    let seconds = encoding.number(file, at);
    let rest = fraction_of(encoding.number(file, at + 4), encoding.nano);
    1000 * (seconds as u64) + rest
}
