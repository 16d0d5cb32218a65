// Lists that are not checked: what they hold, one after another, and where they are ill-formed.
#![tactic(auto)]

ghost use Rattle.std.specs.Prelude.{◌≡◌, ◌+◌, ◌≤◌, true, length};
ghost use Rattle.items.specs.Items.{span_test, span_of};
ghost use Rattle.items.specs.Walks.{test_of};
ghost use Rattle.items.specs.Entries.{item_of, span_of_part, EntryIs};

use crate::{Direction, Listing, SpanPart, allowed};
use words::{get_le16, get_le32, get_le64};

// An item in a list: where it stands, its kind and its body.
#[derive(Clone, Copy)]
pub struct Entry<'a> {
    pub at: usize,
    pub kind: u16,
    pub body: &'a [u8],
}

impl<'a> Entry<'a> {
    // The span that the item is.
    pub fn span(self) -> SpanPart<'a>
        requires { span_test self.kind self.body.now ≡ true }
        ensures { span_of_part result ≡ span_of (item_of self.entry) }
    {
        SpanPart {
            direction: Direction::of_kind(self.kind),
            ms: get_le64(self.body, 0),
            wire: &self.body[8..],
        }
    }
}

// The item at a place, where the list may have it there.
fn entry_at(list: &[u8], which: Listing, at: usize) -> Option<Entry<'_>>
    requires { at ≤ length list.now }
    ensures { EntryIs (test_of which) list.now at result }
{
    let (head, rest) = list[at..].split_at_checked(6)?;
    let (body, _) = rest.split_at_checked(get_le32(head, 0) as usize)?;
    let kind = get_le16(head, 4);
    allowed(which, kind, body).then_some(Entry { at, kind, body })
}

// A list that is not checked, from a place on. Iterating gives its items; where the list is ill-formed it gives that offset as
// an error, and then nothing more.
#[derive(Clone, Copy)]
pub struct Walk<'a> {
    pub list: &'a [u8],
    pub which: Listing,
    pub at: usize,
}

impl<'a> Iterator for Walk<'a> {
    ghost use Rattle.std.specs.Prelude.{◌-◌, length};
    ghost use Rattle.std.specs.Iterator.{at_most};
    ghost use Rattle.items.specs.Entries.{GivesEntry};

    type Item = Result<Entry<'a>, usize>;

    ghost next_gives = { GivesEntry };

    ghost remaining = { λ w. at_most (length w.list.now - w.at) };

    fn next(&mut self) -> Option<Result<Entry<'a>, usize>> {
        let list = self.list;
        let at = self.at;
        if list.len() <= at {
            return None;
        }
        match entry_at(list, self.which, at) {
            Some(entry) => {
                self.at = at + 6 + entry.body.len();
                Some(Ok(entry))
            }
            None => {
                self.at = list.len();
                Some(Err(at))
            }
        }
    }
}
