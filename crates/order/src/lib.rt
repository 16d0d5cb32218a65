// Fixture names in the order in which their frames crossed the link.
#![tactic(auto)]

ghost use Rattle.std.specs.Prelude.{◌≡◌, ◌+◌, ◌<◌, ◌≤◌, length};
ghost use Rattle.items.specs.Items.{name_item, name_list};
ghost use Rattle.laws.specs.Stores.{Writes};
ghost use Rattle.items.specs.Checked.{names_left};
ghost use Rattle.laws.specs.Answers.{Meets};
ghost use Rattle.sorting.specs.Names.{le_name};
ghost use Rattle.sorting.specs.Sort.{isort};
ghost use Rattle.sorting.specs.Chains.{back};
ghost use Rattle.order.specs.Order.{capture_order, told_ordered};
ghost use Rattle.order.specs.Steps.{Lent, names_at, Placed, Fills, RunPre, RunsOn, Runs, names_of, ReadIs, WayPre};

use items::{Listing, MOST, NAME, Names, Walk, put_item};
use sorting::{Head, head_of, is_first, name_of, sort};
use words::{copy_to, get32, put32};

// Why a list is not put in order: the offset at which it is ill-formed; the length that the output would need.
#[derive(Clone, Copy)]
pub enum OrderError {
    IllFormed(usize),
    OutShort(usize),
}

// ---- the list written

// Puts the places of the names of a list into the first words, and returns how many they are.
// Stays: three functions take the names and their output. What is known of both (`Lent`) speaks of the output's length too, and a struct of the
// two would hold it as &mut: each function would promise besides that the struct still holds that output.
// Stays: at goes along by hand: `for` keeps the list's own place, names.at, to itself, and a name does not say where it stands.
fn place_names(names: Names, out: &mut [u8]) -> usize
    requires { Lent names out.old }
    ensures { Placed names.entry result out.new }
{
    let mut at = names.at;
    let mut n = 0;
    for name in names {
        put32(out, n, at as u32);
        at += 6 + name.len();
        n += 1;
    }
    n
}

// Writes a name as the item that ends at a place, and returns where the item begins.
fn put_before(out: &mut [u8], to: usize, name: &[u8]) -> usize
    requires long { 6 + length name.now ≤ to }
    requires end_in_bounds { to ≤ length out.old }
    ensures { Writes out.old result (name_item name.now) to out.new }
{
    let at = to - 6 - name.len();
    put_item(out, at, NAME, name);
    at
}

// Writes the names at the places in the first n words as items, the last first. They fill the output, and an item is longer
// than a word, so that no place is written over before it is read.
// Stays: names, out and n side by side. `sort` takes them too, but with lo and top: a struct of the three would serve this call alone, and hold
// the output as &mut.
fn write_names(names: &[u8], out: &mut [u8], n: usize)
    requires { Fills names.now n out.old }
    ensures { out.new ≡ name_list (names_at names.now n out.old) }
{
    let mut to = out.len();
    for i in (0..n).rev() {
        let place = get32(out, i);
        let name = name_of(names, place);
        to = put_before(out, to, name);
    }
}

// The names of a checked list, in order, in an output of its length. Half as many words again are free behind the places,
// since an item takes 6 bytes or more.
fn arrange(names: Names, out: &mut [u8])
    requires { Lent names out.old }
    ensures { out.new ≡ name_list (isort le_name (names_left names.entry)) }
{
    let n = place_names(names, out);
    sort(names.list, out, 0, n, n);
    write_names(names.list, out, n);
}

// Writes the names of a checked list, the last first, to an output of its length.
// Stays: not one function with write_names, whose places stand in the output that it writes, so that no iterator can lend them.
fn write_back(names: Names, out: &mut [u8])
    requires { Lent names out.old }
    ensures { out.new ≡ name_list (back (names_left names.entry)) }
{
    let mut to = out.len();
    for name in names {
        to = put_before(out, to, name);
    }
}

// ---- lists that run one way

// Whether the rest of a list is well-formed, where each name from the given one on comes before the next or equals it (up), or
// each comes after the next.
fn runs_on(rest: Walk, first: Head, up: bool) -> bool
    requires { RunPre rest first }
    ensures { RunsOn rest.entry.list.now rest.entry.at first up result }
{
    let names = rest.list;
    let mut a = first;
    for name in rest {
        let Ok(name) = name else {
            return false;
        };
        let b = head_of(names, name.at as u32);
        if is_first(names, a, b) != up {
            return false;
        }
        a = b;
    }
    true
}

// Whether a list is well-formed, and its names all go up, or all down.
fn runs(names: &[u8], up: bool) -> bool
    ensures { Runs names.now up result }
{
    if MOST < names.len() {
        return false;
    }
    let mut rest = Walk {
        list: names,
        which: Listing::Names,
        at: 0,
    };
    match rest.next() {
        None => true,
        Some(Err(_)) => false,
        Some(Ok(name)) => runs_on(rest, head_of(names, name.at as u32), up),
    }
}

// ---- the call

// A checked list by how its names stand: in order, wholly the other way round, or neither.
// Stays: the names in each case, since what is known of them differs by the case.
#[derive(Clone, Copy)]
enum Way<'a> {
    Up(Names<'a>),
    Down(Names<'a>),
    Mixed(Names<'a>),
}

// Checks a list. Most are in order, and are read but once for both.
fn read_names(list: &[u8]) -> Result<Way<'_>, OrderError>
    ensures { ReadIs list.entry result }
{
    if runs(list, true) {
        return Ok(Way::Up(Names { list, at: 0 }));
    }
    if runs(list, false) {
        return Ok(Way::Down(Names { list, at: 0 }));
    }
    let names = Names::check(list).map_err(OrderError::IllFormed)?;
    Ok(Way::Mixed(names))
}

// Writes the names of a list in order to an output of its length.
fn write_in_order(way: Way, out: &mut [u8])
    requires { WayPre way out.old }
    ensures { out.new ≡ name_list (isort le_name (names_left (names_of way.entry))) }
{
    match way {
        Way::Up(names) => {
            copy_to(names.list, out, 0);
        }
        Way::Down(names) => {
            write_back(names, out);
        }
        Way::Mixed(names) => {
            arrange(names, out);
        }
    }
}

// Writes a list of names in the order in which their frames crossed the link, and returns its length.
pub fn capture_order(names: &[u8], out: &mut [u8]) -> Result<usize, OrderError>
    ensures { Meets (capture_order names.now) out.old (told_ordered result) out.new }
{
    let way = read_names(names)?;
    let need = names.len();
    if out.len() < need {
        return Err(OrderError::OutShort(need));
    }
    write_in_order(way, &mut out[..need]);
    Ok(need)
}
