// Places of names in a list, as words in lent memory, sorted by the names at them.
#![tactic(auto)]

ghost use Rattle.std.specs.Prelude.{◌≡◌, ◌+◌, ◌*◌, ◌/◌, ◌≤◌, length};
ghost use Rattle.words.specs.Words.{word};
ghost use Rattle.sorting.specs.Steps.{name_at, HeadOf, first_of, Copies, Rotates, MergePre, Merges, HalvesIn, Joins, Pairs, Sorts};

mod halves;

use counter::rank_of;
use halves::Halves;
use lexical::bytes_le;
use words::{get_le32, get32, put32};

// ---- names compared

// The name at a place of a list, as much of it as is there.
// Stays: by get the length would be an Option of four bytes, and what is left of the names a second slice; the place is tested once here.
pub fn name_of<'a>(names: &'a [u8], place: u32) -> &'a [u8]
    ensures { result.now ≡ name_at names.now place }
{
    let at = place as usize;
    let start = at + 6;
    if names.len() < start {
        return &[];
    }
    let size = (get_le32(names, at) as usize).min(names.len() - start);
    &names[start..start + size]
}

// A name in a list: its place, and the rank of its counter, which is read once for many comparisons.
// Stays: the rank as a number, as counter::rank_of gives it, which is public: no counter comes before the counter 0 by one comparison. With
// the counter as an Option, ordered by std's cmp (tried), an order of 1,000 names takes 13 of a hundred more instructions (shuffled), and
// 14 (rotated by a third).
#[derive(Clone, Copy)]
pub struct Head {
    pub place: u32,
    pub rank: usize,
}

// The name at a place.
pub fn head_of(names: &[u8], place: u32) -> Head
    ensures { HeadOf names.now place result }
{
    Head {
        place,
        rank: rank_of(name_of(names, place)),
    }
}

// Whether the name a comes before b, or equals it. Not inlined: in a step of the merge it takes half a kilobyte of stack more, and time.
#[inline(never)]
pub fn is_first(names: &[u8], a: Head, b: Head) -> bool
    ensures { result ≡ first_of names.now a b }
{
    if a.rank != b.rank {
        return a.rank < b.rank;
    }
    bytes_le(name_of(names, a.place), name_of(names, b.place))
}

// ---- places of names, as words in the output, sorted

// Stays: names and output side by side, here and below; a struct of them would hold the output as &mut.
// The name at the place in a word.
fn head_at(names: &[u8], out: &[u8], k: usize) -> Head
    requires { 4 * k + 4 ≤ length out.now }
    ensures { HeadOf names.now (word out.now k) result }
{
    head_of(names, get32(out, k))
}

// Copies the n words from lo on to the words from to on. They may overlap.
fn copy_words(out: &mut [u8], lo: usize, n: usize, to: usize)
    requires { (4 * (lo + n) ≤ length out.old) × (4 * (to + n) ≤ length out.old) }
    ensures { Copies lo n to out.old out.new }
{
    out.copy_within(4 * lo..4 * (lo + n), 4 * to);
}

// Changes two halves round.
// Stays: three copies. By std's rotate_left on their bytes, orders of 20,000 names take 12 of a hundred more instructions (shuffled), 24
// (without counters) and three times as many (reversed but for two names, 16.8 to 65.8 million), and 4,096 bytes of stack more.
fn rotate_words(out: &mut [u8], halves: Halves)
    requires { 4 * (halves.top + halves.h) ≤ length out.old }
    ensures { Rotates halves out.old out.new }
{
    let Halves { lo, h, m, top } = halves;
    copy_words(out, lo, h, top);
    copy_words(out, lo + h, m, lo);
    copy_words(out, top, h, lo + m);
}

// Merges two halves, of which the first was copied to the free words, to the words from lo on. The first names of both are
// given; a name is read when its turn comes, and stays read until it is written.
// Stays: a turn moves one of two indices, by which name comes first, so that no range and no iterator is gone through.
fn merge_words(names: &[u8], out: &mut [u8], halves: Halves, first: Head, second: Head)
    requires { MergePre names.now halves out.old first second }
    ensures { Merges names.now halves out.old out.new }
{
    let Halves { lo, h, m, top } = halves;
    let mut i = 0;
    let mut j = 0;
    let mut a = first;
    let mut b = second;
    loop {
        if is_first(names, a, b) {
            put32(out, lo + i + j, a.place);
            i += 1;
            // What is left of the second half stands where it belongs.
            if i == h {
                return;
            }
            a = head_at(names, out, top + i);
        } else {
            put32(out, lo + i + j, b.place);
            j += 1;
            // What is left of the first half follows as it stands.
            if j == m {
                copy_words(out, top + i, h - i, lo + i + j);
                return;
            }
            b = head_at(names, out, lo + h + j);
        }
    }
}

// Joins two sorted halves. Halves that meet in order stay as they are, and halves that are wholly the wrong way round change
// places.
fn join_halves(names: &[u8], out: &mut [u8], halves: Halves)
    requires { HalvesIn halves out.old }
    ensures { Joins names.now halves out.old out.new }
{
    let Halves { lo, h, m, top } = halves;
    let a = head_at(names, out, lo + h - 1);
    let b = head_at(names, out, lo + h);
    if is_first(names, a, b) {
        return;
    }
    let x = head_at(names, out, lo);
    let y = head_at(names, out, lo + h + m - 1);
    if is_first(names, x, y) {
        copy_words(out, lo, h, top);
        merge_words(names, out, halves, x, b);
        return;
    }
    rotate_words(out, halves);
}

// Sorts two words.
fn sort_pair(names: &[u8], out: &mut [u8], lo: usize)
    requires { 4 * (lo + 2) ≤ length out.old }
    ensures { Pairs names.now lo out.old out.new }
{
    let a = head_at(names, out, lo);
    let b = head_at(names, out, lo + 1);
    if is_first(names, a, b) {
        return;
    }
    put32(out, lo, b.place);
    put32(out, lo + 1, a.place);
}

// Sorts the n words from lo on by the names at their places. The words from top on are free.
pub fn sort(names: &[u8], out: &mut [u8], lo: usize, n: usize, top: usize)
    requires { (lo + n ≤ top) × (4 * (top + n / 2) ≤ length out.old) }
    ensures { Sorts names.now lo n top out.old out.new }
{
    if n < 2 {
        return;
    }
    if n == 2 {
        sort_pair(names, out, lo);
        return;
    }
    let h = n / 2;
    let m = n - h;
    sort(names, out, lo, h, top);
    sort(names, out, lo + h, m, top);
    join_halves(names, out, Halves { lo, h, m, top });
}
