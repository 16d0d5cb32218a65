// What a caller chooses, as numbers in a list: the tail rule and the container, for every call that reads a trace; for import, whether
// FCS is checked.
#![tactic(auto)]

ghost use Rattle.std.specs.Prelude.{◌≡◌, get_or};
ghost use Rattle.opening.specs.Opening.{tail_of};
ghost use Rattle.options.specs.Numbers.{tail_number, tail_in, container_number, container_in, fcs_number, fcs_in};

use opening::Tail;
use trace::Container;

// The number at a place of the list, or its default where the list is shorter.
pub fn option_at(options: &[u64], at: usize, default: u64) -> u64
    ensures { result ≡ get_or options.now at default }
{
    options.get(at).copied().unwrap_or(default)
}

// The tail rule by number: 0 is strict, any other tolerant.
// Stays: as the two functions below, since each makes another type of its number; a trait for them would be longer than the three. And no From<u64>,
// since Tail and Container lie in crates below, which know nothing of a caller's numbers.
pub fn tail_of(tolerant: u64) -> Tail
    ensures { tail_of result ≡ tail_number tolerant }
{
    match tolerant {
        0 => Tail::Strict,
        _ => Tail::Tolerant,
    }
}

// The container by number: 0 is btsnoop, any other pcap.
fn container_of(container: u64) -> Container
    ensures { result ≡ container_number container }
{
    match container {
        0 => Container::Btsnoop,
        _ => Container::Pcap,
    }
}

// The switch by number: 0 is off, any other on.
fn fcs_of(fcs: u64) -> bool
    ensures { result ≡ fcs_number fcs }
{
    fcs != 0
}

// The tail rule in a list of options.
pub fn tail_in(options: &[u64]) -> Tail
    ensures { tail_of result ≡ tail_in options.now }
{
    tail_of(option_at(options, 1, 0))
}

// The container in a list of options.
pub fn container_in(options: &[u64]) -> Container
    ensures { result ≡ container_in options.now }
{
    container_of(option_at(options, 2, 0))
}

// Whether FCS is checked, in a list of options.
pub fn fcs_in(options: &[u64]) -> bool
    ensures { result ≡ fcs_in options.now }
{
    fcs_of(option_at(options, 3, 0))
}
