// The btsnoop file: its header, and the size, time and ACL packet of a record.
#![tactic(auto)]

ghost use Rattle.std.specs.Prelude.{◌≡◌, ◌+◌, ◌-◌, ◌/◌, ◌%◌, ◌≤◌, length, drop};
ghost use Rattle.btsnoop.specs.Header.{is_btsnoop, is_datalink};
ghost use Rattle.btsnoop.specs.Headers.{datalink_by, header_of};
ghost use Rattle.btsnoop.specs.Records.{record_size};
ghost use Rattle.btsnoop.specs.Packets.{milliseconds};
ghost use Rattle.btsnoop.specs.Reading.{MonitorIs, RecordIs};

use acl::{Excerpt, Fragment};
use words::{get_be32, get_be64, same};

// The datalinks that are read: HCI packets by their flags, H4 packets, and packets of a monitor.
#[derive(Clone, Copy)]
pub enum Datalink {
    Hci,
    H4,
    Monitor,
}

// Why a header is not taken: it is none of btsnoop, or its datalink is another.
#[derive(Clone, Copy)]
pub enum HeaderError {
    NotBtsnoop,
    Datalink(u32),
}

// Whether the file begins as a btsnoop file does.
// Stays: by words' same, which answers by the definition's own equality; starts_with answers by another, to be made this one.
fn is_btsnoop(file: &[u8]) -> bool
    ensures { result ≡ is_btsnoop file.now }
{
    if file.len() < 16 {
        return false;
    }
    same(&file[..8], b"btsnoop\0") && get_be32(file, 8) == 1
}

// The datalink as which a number is read: one that is none of the three is read as HCI.
// Stays: total, with a test beside it: the definitions read the records of every number, as HCI where it is another, so that each has a
// datalink; only the header refuses the others.
impl From<u32> for Datalink {
    ghost from_gives = { λ n d. d ≡ datalink_by n };

    fn from(n: u32) -> Datalink {
        match n {
            1002 => Datalink::H4,
            2001 => Datalink::Monitor,
            _ => Datalink::Hci,
        }
    }
}

// Whether the datalink of this number is one that is taken.
#[tactic(auto, unfolding(crate::specs::Header::is_datalink))]
fn is_datalink(n: u32) -> bool
    ensures { result ≡ is_datalink n }
{
    matches!(n, 1001 | 1002 | 2001)
}

// Reads the header: the datalink.
pub fn read_header(file: &[u8]) -> Result<Datalink, HeaderError>
    ensures { result ≡ header_of file.now }
{
    if !is_btsnoop(file) {
        return Err(HeaderError::NotBtsnoop);
    }
    let n = get_be32(file, 12);
    if !is_datalink(n) {
        return Err(HeaderError::Datalink(n));
    }
    Ok(Datalink::from(n))
}

// The size of the record at a place, from its front.
pub fn record_size(file: &[u8], at: usize) -> usize
    requires { at + 8 ≤ length file.now }
    ensures { result ≡ record_size (drop at file.now) }
{
    24 + get_be32(file, at + 4) as usize
}

// The microseconds of a timestamp, in milliseconds.
fn to_ms(stamp: u64) -> u64
    ensures { result ≡ (stamp - 0x00dcddb30f2f8000) / 1000 }
{
    stamp.saturating_sub(0x00dcddb30f2f8000) / 1000
}

// The adapter's index in a monitor's flags: the upper 16 bits.
fn index_of(flags: u32) -> u16
    ensures { result ≡ flags / 65536 }
{
    (flags / 65536) as u16
}

// The packet of a monitor's record.
fn read_monitor(packet: Excerpt, flags: u32) -> Option<Fragment>
    ensures { MonitorIs packet.entry flags result }
{
    let op = flags % 65536;
    let index = index_of(flags);
    match op {
        4 => packet.read_fragment(index, false),
        5 => packet.read_fragment(index, true),
        _ => None,
    }
}

// The packet of a record. Where no monitor wrote it, a bit of its flags says whether it is data, and one its direction.
pub fn read_packet(r: Excerpt, datalink: Datalink) -> Option<Fragment>
    requires { 24 ≤ length r.bytes.now }
    ensures { RecordIs r.entry datalink result }
{
    let flags = get_be32(r.bytes, 8);
    let packet = r.after(24);
    let rx = flags % 2 == 1;
    match datalink {
        Datalink::Monitor => read_monitor(packet, flags),
        _ if flags / 2 % 2 == 1 => None,
        Datalink::H4 => packet.read_h4(rx),
        Datalink::Hci => packet.read_fragment(0, rx),
    }
}

// The milliseconds of the record at a place.
pub fn time_at(file: &[u8], at: usize) -> u64
    requires { at + 24 ≤ length file.now }
    ensures { result ≡ milliseconds (drop at file.now) }
{
    to_ms(get_be64(file, at + 16))
}
