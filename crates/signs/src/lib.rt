// Signs in a trace that something is not in it: what they are, and one of them counted.
#![tactic(auto)]

ghost use Rattle.std.specs.Prelude.{◌≡◌, ◌||◌, ◌%◌, ◌≤◌, eqb, length, get_or};
ghost use Rattle.trace.specs.Formats.{packet_by};
ghost use Rattle.trace.specs.Finding.{bytes_of};
ghost use Rattle.trace.specs.declared.Format.TheVariants.{Btsnoop as ByDatalink};
ghost use Rattle.signs.specs.Counting.{noted, NotePre};
ghost use Rattle.signs.specs.Recorded.{is_acl, is_none};
ghost use Rattle.signs.specs.Reading.{DirectedIs, lacks_data, before_packet};

use btsnoop::Datalink;
use trace::{Format, Record};
use words::{field16, get_be32};

// How often a sign comes, and the byte at which the record starts that shows it first; 0 if none does.
// Stays: two numbers, since the calls tell both as they stand, the 0 too; many says whether there is a first.
#[derive(Clone, Copy, Default)]
pub struct Gap {
    pub many: u64,
    pub first: u64,
}

// A sign that came so many times more, at a place.
pub fn note(g: Gap, by: u64, at: usize) -> Gap
    requires { NotePre g by }
    ensures { result ≡ noted g by at }
{
    if g.many == 0 {
        return Gap {
            many: by,
            first: at as u64,
        };
    }
    Gap {
        many: g.many + by,
        ..g
    }
}

// Whether a monitor's flags say ACL data.
fn is_monitor_acl(flags: u32) -> bool
    ensures { result ≡ (eqb (flags % 65536) 4 || eqb (flags % 65536) 5) }
{
    matches!(flags % 65536, 4 | 5)
}

// Whether an H4 packet's first byte is there and says ACL data.
fn is_h4_acl(packet: &[u8]) -> bool
    ensures { result ≡ eqb (get_or packet.now 0 0) 2 }
{
    packet.first() == Some(&2)
}

// Whether a record of a btsnoop file is ACL data by its flags.
fn is_flagged_acl(bytes: &[u8], datalink: Datalink) -> bool
    requires { 24 ≤ length bytes.now }
    ensures { result ≡ is_acl (ByDatalink datalink) bytes.now }
{
    let flags = get_be32(bytes, 8);
    let is_data = flags / 2 % 2 == 0;
    match datalink {
        Datalink::Monitor => is_monitor_acl(flags),
        Datalink::H4 => is_data && is_h4_acl(&bytes[24..]),
        Datalink::Hci => is_data,
    }
}

// Whether a record of a pcap file is ACL data by its direction and the byte after it.
fn is_directed_acl(bytes: &[u8]) -> bool
    ensures { DirectedIs bytes.now result }
{
    if bytes.len() < 20 {
        return false;
    }
    let way = get_be32(bytes, 16);
    way < 2 && is_h4_acl(&bytes[20..])
}

// Whether a record is ACL data.
pub fn is_acl(r: Record) -> bool
    ensures { result ≡ is_acl r.entry.trace.format (bytes_of r.entry) }
{
    let bytes = r.bytes();
    match r.trace.format {
        Format::Btsnoop(datalink) => is_flagged_acl(bytes, datalink),
        Format::Pcap(_) => is_directed_acl(bytes),
    }
}

// Whether a field of an ACL packet, or its data, is not all there.
// Stays: by let else: with is_none_or it is a closure over the packet's length, and no plainer.
fn lacks_data(packet: &[u8]) -> bool
    ensures { result ≡ lacks_data packet.now }
{
    let Some(n) = field16(packet, 2) else {
        return true;
    };
    packet.len() < 4 + usize::from(n)
}

// How many bytes of a record of ACL data stand before its ACL packet.
fn before_packet(format: Format) -> usize
    ensures { result ≡ before_packet format }
{
    match format {
        Format::Btsnoop(Datalink::Hci) => 24,
        Format::Btsnoop(Datalink::H4) => 25,
        Format::Btsnoop(Datalink::Monitor) => 24,
        Format::Pcap(_) => 21,
    }
}

// Whether a record holds no ACL packet that import takes. It does not read the packet.
// Stays: with before_packet and what is above, the tests of btsnoop's, pcap's and acl's reading a second time. `packets::read_packet(r).is_none()`
// would be a second caller of what import calls for each packet, which is put in place only where it is called once. Figures are of l2cap::step:
// with a second caller, import took 9 percent more instructions (docs/notes/00-losses.md).
pub fn lacks_packet(r: Record) -> bool
    ensures { result ≡ is_none (packet_by r.entry.trace.format (bytes_of r.entry)) }
{
    !is_acl(r) || lacks_data(&r.bytes()[before_packet(r.trace.format)..])
}
