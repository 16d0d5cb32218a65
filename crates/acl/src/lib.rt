// An ACL packet in the bytes of a record, whichever container the record is of.
#![tactic(auto)]

ghost use Rattle.std.specs.Prelude.{◌≡◌, not, ◌+◌, ◌*◌, ◌/◌, ◌%◌, ◌≤◌, cond, eqb};
ghost use Rattle.container.specs.Packets.{link_of};

mod excerpt;

pub use excerpt::Excerpt;

// The fields of an ACL packet.
#[derive(Clone, Copy)]
pub struct Fragment {
    // 2 * link + direction
    pub key: u32,
    // whether it starts a PDU
    pub start: bool,
    // where the data starts
    pub place: u32,
    pub len: u32,
}

// An adapter's index and a handle field as 2 * link + direction.
fn key_of(index: u16, handle: u16, rx: bool) -> u32
    ensures { result ≡ 2 * link_of index (handle % 4096) + cond rx 1 0 }
{
    2 * (4096 * u32::from(index) + u32::from(handle % 4096)) + u32::from(rx)
}

// Whether the boundary flag starts a PDU; else it continues one.
fn start_of(handle: u16) -> bool
    ensures { result ≡ not (eqb (handle / 4096 % 4) 1) }
{
    handle / 4096 % 4 != 1
}
