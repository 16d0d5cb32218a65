// Lists that were checked: what they hold, one after another.
#![tactic(auto)]

ghost use Rattle.std.specs.Prelude.{◌<◌, ◌≤◌, length};
ghost use Rattle.items.specs.Items.{end_at, span_test, name_test};
ghost use Rattle.items.specs.Walks.{Walks};
ghost use Rattle.items.specs.Entries.{NextIn};

use crate::{Entry, Listing, SpanPart, check};
use words::{get_le16, get_le32};

// The item at a place of a list that is checked from there on, and the place after it; none at the end.
// Stays: beside walking's entry_at, which tests what is known here: a list that was checked is read without a test.
#[tactic(auto, unfolding(crate::specs::Items::end_at))]
fn entry_in(list: &[u8], at: usize) -> Option<(Entry<'_>, usize)>
    requires { at < length list.now → end_at list.now at ≤ length list.now }
    ensures { NextIn list.now at result }
{
    if list.len() <= at {
        return None;
    }
    let start = at + 6;
    let end = start + get_le32(list, at) as usize;
    let entry = Entry {
        at,
        kind: get_le16(list, at + 4),
        body: &list[start..end],
    };
    Some((entry, end))
}

// A list of spans that was checked, from a place on. Iterating gives its spans.
// Stays: beside Names. One type for both, over a trait of what is read of an item, is longer: the trait, two types that stand for the
// kinds and what each implements are more lines than one of the two lists.
#[derive(Clone, Copy)]
pub struct Spans<'a> {
    pub list: &'a [u8],
    pub at: usize,
    pub ghost walks: { Walks span_test list.now at },
}

impl<'a> Iterator for Spans<'a> {
    ghost use Rattle.std.specs.Iterator.{item_count};
    ghost use Rattle.items.specs.Checked.{spans_left, GivesSpan};

    type Item = SpanPart<'a>;

    ghost next_gives = { GivesSpan };

    ghost remaining = { item_count spans_left };

    fn next(&mut self) -> Option<SpanPart<'a>> {
        let (entry, end) = entry_in(self.list, self.at)?;
        self.at = end;
        Some(entry.span())
    }
}

// A list of names that was checked, from a place on. Iterating gives its names.
#[derive(Clone, Copy)]
pub struct Names<'a> {
    pub list: &'a [u8],
    pub at: usize,
    pub ghost walks: { Walks name_test list.now at },
}

impl<'a> Names<'a> {
    ghost use Rattle.items.specs.Checked.{CheckedNames};

    // Checks a list of names, or says as the error the offset at which it is ill-formed.
    pub fn check(list: &'a [u8]) -> Result<Self, usize>
        ensures { CheckedNames list.entry result }
    {
        check(list, Listing::Names)?;
        Ok(Names { list, at: 0 })
    }
}

impl<'a> Iterator for Names<'a> {
    ghost use Rattle.std.specs.Iterator.{item_count};
    ghost use Rattle.items.specs.Checked.{names_left, GivesName};

    type Item = &'a [u8];

    ghost next_gives = { GivesName };

    ghost remaining = { item_count names_left };

    fn next(&mut self) -> Option<&'a [u8]> {
        let (entry, end) = entry_in(self.list, self.at)?;
        self.at = end;
        Some(entry.body)
    }
}
