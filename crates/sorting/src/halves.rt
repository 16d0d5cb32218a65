// Two halves of words that are sorted together.
#![tactic(auto)]

ghost use Rattle.std.specs.Prelude.{◌+◌, ◌≤◌};

// Two halves: the h words from lo on and the m words behind them. The words from top on are free.
#[derive(Clone, Copy)]
pub(crate) struct Halves {
    pub(crate) lo: usize,
    pub(crate) h: usize,
    pub(crate) m: usize,
    pub(crate) top: usize,
    pub(crate) ghost apart: { lo + h + m ≤ top },
}
