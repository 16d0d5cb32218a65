// One headset's list beside another's: the spans of one adapter index, handle and DLCI, whatever else a trace holds.
#![tactic(auto)]

ghost use Rattle.std.specs.Prelude.{◌≡◌};
ghost use Rattle.container.specs.Packets.{link_of};
ghost use Rattle.options.specs.Numbers.{container_in};
ghost use Rattle.onelink.specs.declared.LinkError.TheVariants as variants;
ghost use Rattle.links.specs.OneLink.{may_ask};
ghost use Rattle.onelink.specs.Calls.{told_list, told_link_error, ListsLink, LinkCalls};

use gathering::gather;
use opening::{Tail, open_trace};
use options::container_in;
use streams::{count_stream, write_list};
use telling::{Tell, tell_as};
use trace::{Container, Refusal};

// What is asked for: an adapter's index and a handle, and a DLCI.
#[derive(Clone, Copy)]
pub struct Asked {
    pub index: u16,
    pub handle: u16,
    pub dlci: u8,
}

// What is given: how many spans, how many buffers that are not empty at the end, and the bytes of the list.
#[derive(Clone, Copy)]
pub struct LinkList {
    pub spans: usize,
    pub unfinished: usize,
    pub bytes: usize,
}

// Why nothing is given.
#[derive(Clone, Copy)]
pub enum LinkError {
    // 1 to 5, and pcap's 21 and 22
    Refused(Refusal),
    // there is no such handle, or no such DLCI
    NoLink,
    OutShort(usize),
}

impl From<Refusal> for LinkError {
    ghost from_gives = { λ x y. y ≡ variants.Refused x };

    fn from(x: Refusal) -> LinkError {
        LinkError::Refused(x)
    }
}

// The link as one number.
fn link_of(asked: Asked) -> u32
    ensures { result ≡ link_of asked.index asked.handle }
{
    4096 * (asked.index as u32) + asked.handle as u32
}

// Whether there can be such a handle, and such a DLCI.
#[tactic(auto, unfolding(links::specs::OneLink::may_ask))]
fn may_ask(asked: Asked) -> bool
    ensures { result ≡ may_ask asked.handle asked.dlci }
{
    asked.handle <= 4095 && (1 <= asked.dlci && asked.dlci <= 63)
}

// ListsLink the spans of one link and DLCI. The first pass takes the packets of the link alone; all after it is as for import.
pub fn list_link(
    file: &[u8],
    work: &mut [u8],
    out: &mut [u8],
    container: Container,
    asked: Asked,
) -> Result<LinkList, LinkError>
    ensures { ListsLink container file.now work.old asked.index asked.handle asked.dlci out.old result work.new out.new }
{
    let opened = open_trace(file, work, container, Tail::Strict, Some(link_of(asked)))?;
    if !may_ask(asked) {
        return Err(LinkError::NoLink);
    }
    let g = gather(file, work, opened.packets.count, false);
    let s = count_stream(file, work, g.pieces, asked.dlci);
    let needed = s.bytes;
    if out.len() < needed {
        return Err(LinkError::OutShort(needed));
    }
    write_list(file, work, g.pieces, asked.dlci, out);
    Ok(LinkList {
        spans: s.spans,
        unfinished: s.unfinished,
        bytes: needed,
    })
}

// ---- the call

impl Tell for LinkList {
    ghost answer = { told_list };

    fn tell(self, values: &mut [u64]) -> u32 {
        let list = [self.spans as u64, self.unfinished as u64, self.bytes as u64];
        tell_as(0, &list, values)
    }
}

impl Tell for LinkError {
    ghost answer = { told_link_error };

    fn tell(self, values: &mut [u64]) -> u32 {
        match self {
            LinkError::Refused(x) => x.tell(values),
            LinkError::NoLink => tell_as(23, &[], values),
            LinkError::OutShort(needed) => tell_as(7, &[needed as u64], values),
        }
    }
}

// ListsLink the spans of one link and DLCI by options in a list of numbers, of which the container counts, and tells the answer.
pub fn link_told(
    file: &[u8],
    work: &mut [u8],
    out: &mut [u8],
    asked: Asked,
    options: &[u64],
    values: &mut [u64],
) -> u32
    ensures { LinkCalls (container_in options.now) file.now work.old asked.index asked.handle asked.dlci out.old values.old result work.new out.new values.new }
{
    let container = container_in(options);
    list_link(file, work, out, container, asked).tell(values)
}
