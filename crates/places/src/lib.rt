// Import where places for stretches are lent: the open stretches are listed at the start of work, and the answer is told as a
// number and values.
#![tactic(auto)]

ghost use Rattle.capture.specs.Options.{options_of};
ghost use Rattle.options.specs.Numbers.{container_in};
ghost use Rattle.imports.specs.Numbers.{options_in};
ghost use Rattle.places.specs.Places.{ImportsIn, ToldIn, summed, listed_of};

use capture::{ImportError, Options, Summary, import};
use imports::options_in;
use opening::check_sizes;
use streams::plan;
use stretches::list_open;
use telling::Tell;
use trace::Refusal;

// An answer's number, and how many stretches stand at the start of work.
#[derive(Clone, Copy)]
pub struct Told {
    pub number: u32,
    pub listed: usize,
}

// Imports a trace by options in a list of numbers, where a list of stretches of so many places is lent, and tells the answer.
pub fn places_told(
    file: &[u8],
    work: &mut [u8],
    out: &mut [u8],
    options: &[u64],
    values: &mut [u64],
    places: usize,
) -> Told
    ensures { ToldIn (container_in options.now) file.now work.old places out.old (options_in options.now) values.old result.number result.listed work.new out.new values.new }
{
    let o = options_in(options);
    match import_places(file, work, out, o, places) {
        Ok(p) => Told {
            number: p.summary.tell(values),
            listed: p.listed,
        },
        Err(e) => Told {
            number: e.tell(values),
            listed: 0,
        },
    }
}

// What import gives, and how many stretches stand at the start of work.
#[derive(Clone, Copy)]
pub struct Placed {
    pub summary: Summary,
    pub listed: usize,
}

// Imports a trace where a list of stretches of so many places is lent, and lists the open ones in work.
pub fn import_places(
    file: &[u8],
    work: &mut [u8],
    out: &mut [u8],
    options: Options,
    places: usize,
) -> Result<Placed, ImportError>
    ensures { ImportsIn options.container file.now work.old places (options_of options) out.old (summed result) (listed_of result) work.new out.new }
{
    // Stays: import refuses these sizes too; here they come before the places, which are asked before import is run.
    check_sizes(file, work)?;
    let n = file.len();
    if places < n / 24 {
        return Err(ImportError::Refused(Refusal::WorkShort));
    }
    let summary = import(file, work, out, options)?;
    let p = plan(n / 4, summary.pieces, summary.stream.dlci as u32);
    let listed = list_open(work, p);
    Ok(Placed { summary, listed })
}
