// Replays samples of the Rust source's answers, where no Rust is at hand. Each case of the files that the arguments name is
// run by the proved calls. Number, values, the output written, and all that has to stay as it was are compared.
//
// data/GROUP.bin is what `compare sample GROUP FILE` writes: the answers of the source that was ported to the calls of a
// group. compare/README.md says how to make it again, and how the file is laid out.
#![tactic(auto)]

ghost use Rattle.std.specs.Prelude.{◌≤◌, length, OnOk};
ghost use Rattle.std.specs.Io.KnownBytes.{Appends};
ghost use Rattle.replay.specs.Lines.{sample_line};

use reading::read_full;
use samples::Cases;
use std::fs::File;
use std::io::{Eprint, Print, Write};
use std::rt::Files;
use std::{env, io};

#[derive(Clone, Copy)]
struct Totals {
    cases: u64,
    differences: u64,
}

// A case that is cut short is a difference.
fn replay(s: &[u8], work: &mut [u8], space: &mut [u8]) -> Totals
    ensures cases { result.cases ≤ length s.now }
    ensures differences { result.differences ≤ result.cases }
{
    let mut cases = 0;
    let mut differences = 0;
    for case in Cases::new(s) {
        cases += 1;
        differences += u64::from(!cases::is_same(case, work, space));
    }
    Totals { cases, differences }
}

// A name up to its first dot.
fn stem(name: &str) -> &str {
    name.split_once('.').map_or(name, |(stem, _)| stem)
}

// The line of a sample: its name up to the dot, how many cases were replayed, and how many differ.
fn print<W: Write>(out: &mut W, stem: &str, t: Totals) -> io::Result<()>
    ensures { OnOk result (Appends (W.contents out.old) (W.contents out.new) (sample_line stem.now t.cases t.differences)) }
{
    writeln!(
        out,
        "{stem}: {} cases replayed, {} differences",
        t.cases, t.differences
    )
}

// Replays an open file, and prints its line under a name.
fn replay_open<R: Files + Print>(rt: &R, name: &str, mut open: R::File) -> io::Result<()> {
    let mut file = [0u8; samples::ROOM];
    let got = read_full(&mut open, &mut file)?;
    let mut work = [0u8; 65536];
    let mut space = [0u8; 65536];
    let t = replay(&file[..got], &mut work, &mut space);
    print(&mut io::writer(rt), stem(name), t)
}

// Replays the file of a name. One that cannot be opened has no line, but a message on standard error.
fn replay_file<R: Files + Print + Eprint>(rt: &R, name: &str) -> io::Result<()> {
    match File::open(rt, name) {
        Ok(open) => replay_open(rt, name, open),
        Err(e) => eprintln!(rt; "{name}: {e}"),
    }
}

fn main(rt: HostRuntime) -> io::Result<()> {
    for name in env::args(&rt)?.skip(1) {
        replay_file(&rt, name.as_str())?;
    }
    Ok(())
}
