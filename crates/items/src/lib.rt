// Item lists: spans and names, read, checked and written.
#![tactic(auto)]

ghost use Rattle.std.specs.Prelude.{◌≡◌, ◌+◌, ◌-◌, ◌%◌, ◌<◌, ◌≤◌, length};
ghost use Rattle.laws.specs.Stores.{Writes};
ghost use Rattle.items.specs.Items.{item, item_head, span_item, span, rx_of, read_items};
ghost use Rattle.items.specs.Reading.{read_from};
ghost use Rattle.items.specs.Walks.{test_of, check_of, direction_of};

mod lists;
mod walking;

pub use lists::{Names, Spans};
pub use walking::{Entry, Walk};

// Which way a span went: from the headset (Rx) or to it (Tx).
#[derive(Clone, Copy)]
pub enum Direction {
    Rx,
    Tx,
}

impl Direction {
    // The direction in the low bit of a row's side, 2 * link + direction.
    // Stays: not `From<u32>`, since the number is a side, and its link has nothing to do with the direction.
    #[tactic(auto, unfolding(crate::specs::Items::rx_of))]
    pub fn in_side(side: u32) -> Direction
        ensures { rx_of result ≡ side % 2 }
    {
        if side % 2 == 1 {
            Direction::Rx
        } else {
            Direction::Tx
        }
    }

    // The direction that a span's kind says, or C's number of a way: 1 is Rx, any other Tx.
    // Stays: not `From<u16>`, since a kind may be another; and not `TryFrom`: a span's kind is tested before, and another way of C's is Tx,
    // so that each caller would drop the error.
    #[tactic(auto, unfolding(crate::specs::Walks::direction_of))]
    pub fn of_kind(kind: u16) -> Direction
        ensures { result ≡ direction_of kind }
    {
        if kind == 1 {
            Direction::Rx
        } else {
            Direction::Tx
        }
    }

    // The kind of a span that went this way.
    #[tactic(auto, unfolding(crate::specs::Items::rx_of))]
    pub fn kind(self) -> u16
        ensures { result ≡ 2 - rx_of self }
    {
        match self {
            Direction::Rx => 1,
            Direction::Tx => 2,
        }
    }
}

// The kinds of a fixture's two items: its name, and its wire.
pub const NAME: u16 = 3;

pub const WIRE: u16 = 4;

// How many bytes a list has at most.
pub const MOST: usize = 16777216;

// A span in a list.
#[derive(Clone, Copy)]
pub struct SpanPart<'a> {
    pub direction: Direction,
    pub ms: u64,
    pub wire: &'a [u8],
}

// Which list it is: it says the kinds and bodies that the list may have; Any is a list of items of any kind.
// Stays: an enum beside the types of checked lists. A trait of these would give `Walk` and `check` a type in the place of a value, and
// `allowed` would be three functions of a line each.
#[derive(Clone, Copy)]
pub enum Listing {
    Spans,
    Names,
    Any,
}

// ---- reading

// Whether an item may stand in a list.
#[tactic(auto, unfolding(crate::specs::Items::span_test, crate::specs::Items::name_test))]
fn allowed(which: Listing, kind: u16, body: &[u8]) -> bool
    ensures { result ≡ test_of which kind body.now }
{
    match which {
        Listing::Spans => 8 <= body.len() && matches!(kind, 1 | 2),
        Listing::Names => kind == NAME,
        Listing::Any => true,
    }
}

// Item after item, to the end of the list or to the first at which it is ill-formed.
fn walk(list: &[u8], which: Listing) -> Result<usize, usize>
    ensures { result ≡ check_of (read_from (test_of which) list.now 0) }
{
    let mut n: usize = 0;
    for entry in (Walk { list, which, at: 0 }) {
        entry?;
        n += 1;
    }
    Ok(n)
}

// Checks a list: the number of its items, or as the error the offset at which it is ill-formed. A list over 16,777,216
// bytes is ill-formed at 0.
// Stays: the error is the offset itself. Each caller puts it into an error of its own, which says of which list it is.
pub fn check(list: &[u8], which: Listing) -> Result<usize, usize>
    ensures { result ≡ check_of (read_items (test_of which) list.now) }
{
    if MOST < list.len() {
        return Err(0);
    }
    walk(list, which)
}

// ---- writing: each returns the place after what it wrote

// Stays: output and place side by side, as in every function that writes here; a struct of them would hold the output as &mut.
// What stands before the body of an item.
pub fn put_head(out: &mut [u8], at: usize, kind: u16, size: usize) -> usize
    requires { at + 6 ≤ length out.old }
    ensures { Writes out.old at (item_head kind size) result out.new }
{
    let to = words::put_le(out, at, size as u64, 4);
    words::put_le(out, to, kind as u64, 2)
}

pub fn put_item(out: &mut [u8], at: usize, kind: u16, body: &[u8]) -> usize
    requires { at + 6 + length body.now ≤ length out.old }
    ensures { Writes out.old at (item kind body.now) result out.new }
{
    let to = put_head(out, at, kind, body.len());
    words::copy_to(body, out, to)
}

pub fn put_span(out: &mut [u8], at: usize, direction: Direction, ms: u64, wire: &[u8]) -> usize
    requires { at + 14 + length wire.now ≤ length out.old }
    ensures { Writes out.old at (span_item (span (rx_of direction) ms wire.now)) result out.new }
{
    let to = put_head(out, at, direction.kind(), 8 + wire.len());
    let place = words::put_le(out, to, ms, 8);
    words::copy_to(wire, out, place)
}
